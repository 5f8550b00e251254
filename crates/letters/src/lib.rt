// The five letters of the old edition, their bytes, and what becomes of a state byte on the way to the new edition and on the way back.
#![tactic(auto)]

ghost use Rattle.std.specs.Prelude.{◌≡◌, Ok, Err};
ghost use Rattle.std.specs.Option.{ok_or};
ghost use Rattle.std.specs.Result.{MatchResult};
ghost use Rattle.refusals.specs.declared.Refusal.TheVariants.{State as NoState};
ghost use Rattle.protocol.specs.State.{code};
ghost use Rattle.letters.specs.Letters.{letter_of, letter_code, in_back, lettered, converted};

use protocol::state::{Mode, State};
use refusals::Refusal;

// The state of an entry in the old edition, which has no mode.
#[derive(Clone, Copy, Debug, PartialEq, Eq)]
pub enum Letter {
    Invalid,
    Shared,
    Exclusive,
    Owned,
    Modified,
}

// From the old edition to the new one, or from the new one back to the old.
#[derive(Clone, Copy, Debug, PartialEq, Eq)]
pub enum Way {
    ToNew,
    ToOld,
}

// The letter of an old byte: the one place that tells the old bytes apart.
impl TryFrom<u8> for Letter {
    type Error = Refusal;

    ghost try_from_gives = { λ b r. r ≡ ok_or (letter_of b) NoState };

    #[tactic(auto, unfolding(crate::specs::Letters::letter_of))]
    fn try_from(b: u8) -> Result<Letter, Refusal> {
        match b {
            0 => Ok(Letter::Invalid),
            1 => Ok(Letter::Shared),
            2 => Ok(Letter::Exclusive),
            3 => Ok(Letter::Owned),
            4 => Ok(Letter::Modified),
            5..=255 => Err(Refusal::State),
        }
    }
}

// The letter's byte.
impl From<Letter> for u8 {
    ghost from_gives = { λ l b. b ≡ letter_code l };

    fn from(l: Letter) -> u8 {
        match l {
            Letter::Invalid => 0,
            Letter::Shared => 1,
            Letter::Exclusive => 2,
            Letter::Owned => 3,
            Letter::Modified => 4,
        }
    }
}

// The state that a letter is in the new edition: what is held is in write back.
impl From<Letter> for State {
    ghost from_gives = { λ l s. s ≡ in_back l };

    fn from(l: Letter) -> State {
        match l {
            Letter::Invalid => State::I,
            Letter::Shared => State::S(Mode::Back),
            Letter::Exclusive => State::E(Mode::Back),
            Letter::Owned => State::O,
            Letter::Modified => State::M,
        }
    }
}

// The letter of a state: the old edition has no write through.
impl TryFrom<State> for Letter {
    type Error = Refusal;

    ghost try_from_gives = { λ s r. MatchResult r (λ l. lettered s ≡ Ok (letter_code l)) (λ e. lettered s ≡ Err e) };

    fn try_from(s: State) -> Result<Letter, Refusal> {
        match s {
            State::I => Ok(Letter::Invalid),
            State::S(Mode::Back) => Ok(Letter::Shared),
            State::E(Mode::Back) => Ok(Letter::Exclusive),
            State::S(Mode::Through) | State::E(Mode::Through) => Err(Refusal::Through),
            State::O => Ok(Letter::Owned),
            State::M => Ok(Letter::Modified),
        }
    }
}

// The new edition's byte of a letter: a constant for each. (Asked of any letter, the two conversions in turn become a jump, mispredicted where
// letters are mixed, and `moesi_from_old` takes some four times as long.)
fn new_byte(l: Letter) -> u8
    ensures { result ≡ code (in_back l) }
{
    match l {
        Letter::Invalid => u8::from(State::from(Letter::Invalid)),
        Letter::Shared => u8::from(State::from(Letter::Shared)),
        Letter::Exclusive => u8::from(State::from(Letter::Exclusive)),
        Letter::Owned => u8::from(State::from(Letter::Owned)),
        Letter::Modified => u8::from(State::from(Letter::Modified)),
    }
}

// What becomes of a state byte, by the way that it goes: the byte of the other edition. It is refused where it is no state of its own edition,
// or a state in write through, which the old edition does not have. Each way asks other types, so no closure is chosen here.
#[tactic(auto, unfolding(crate::specs::Letters::converted))]
pub fn convert_byte(way: Way, b: u8) -> Result<u8, Refusal>
    ensures { result ≡ converted way b }
{
    match way {
        Way::ToNew => {
            let letter = Letter::try_from(b)?;
            Ok(new_byte(letter))
        }
        Way::ToOld => {
            let state = State::try_from(b).map_err(|_| Refusal::State)?;
            Ok(u8::from(Letter::try_from(state)?))
        }
    }
}
