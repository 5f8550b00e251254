// Modes, the seven states of an entry, and the bytes of the state table.
ghost use Rattle.std.specs.Prelude.{◌≡◌};
ghost use Rattle.std.specs.Result.{result_ok};
ghost use Rattle.protocol.specs.State.{code, state_of, state_row, or_invalid, is_state, valid, owner, exclusive, is_back};

// The mode of an access, and of an entry other than I.
#[derive(Clone, Copy, Debug, PartialEq, Eq)]
pub enum Mode {
    Through,
    Back,
}

impl Mode {
    pub fn is_back(self) -> bool
        ensures { result ≡ is_back self }
    {
        matches!(self, Mode::Back)
    }
}

// Modified, owned, exclusive, shared, invalid. O and M carry no mode: they are always write back.
#[derive(Clone, Copy, Debug, PartialEq, Eq)]
pub enum State {
    I,
    S(Mode),
    E(Mode),
    O,
    M,
}

// A byte of the state table that is none of the seven states.
#[derive(Clone, Copy, Debug, PartialEq, Eq)]
pub struct NoState;

// The one place that tells the state bytes apart, with the row of bits after it.
impl TryFrom<u8> for State {
    type Error = NoState;

    ghost try_from_gives = { λ b r. result_ok r ≡ state_of b };

    #[tactic(auto, unfolding(crate::specs::State::state_of))]
    fn try_from(b: u8) -> Result<State, NoState> {
        match b {
            0 => Ok(State::I),
            1 => Ok(State::S(Mode::Through)),
            2 => Ok(State::E(Mode::Through)),
            9 => Ok(State::S(Mode::Back)),
            10 => Ok(State::E(Mode::Back)),
            11 => Ok(State::O),
            12 => Ok(State::M),
            3..=8 | 13..=255 => Err(NoState),
        }
    }
}

// The byte of a state.
impl From<State> for u8 {
    ghost from_gives = { λ s b. b ≡ code s };

    #[tactic(auto, unfolding(crate::specs::State::code))]
    fn from(s: State) -> u8 {
        match s {
            State::I => 0,
            State::S(Mode::Through) => 1,
            State::S(Mode::Back) => 9,
            State::E(Mode::Through) => 2,
            State::E(Mode::Back) => 10,
            State::O => 11,
            State::M => 12,
        }
    }
}

impl State {
    // Not I.
    pub fn is_valid(self) -> bool
        ensures { result ≡ valid self }
    {
        match self {
            State::I => false,
            State::S(_) | State::E(_) | State::O | State::M => true,
        }
    }

    // O or M.
    pub fn is_owner(self) -> bool
        ensures { result ≡ owner self }
    {
        match self {
            State::I | State::S(_) | State::E(_) => false,
            State::O | State::M => true,
        }
    }

    // E or M.
    pub fn is_exclusive(self) -> bool
        ensures { result ≡ exclusive self }
    {
        match self {
            State::I | State::S(_) | State::O => false,
            State::E(_) | State::M => true,
        }
    }
}

// What the match says of the bytes below 16, as one row of bits: bit b where byte b isn't I, bit 16 + b where it is O or M, bit 32 + b where
// it is no state. (From 13 on no byte is one.)
#[tactic(auto, using(crate::proofs::States::state_row_is))]
pub fn state_row() -> u64
    ensures { result ≡ state_row }
{
    0xE1F8_1800_1E06
}

pub fn is_state(b: u8) -> bool
    ensures { result ≡ is_state (state_of b) }
{
    State::try_from(b).is_ok()
}

// The state of a byte. A byte that is no state is read as I: a step refuses it first.
pub fn or_invalid(b: u8) -> State
    ensures { result ≡ or_invalid (state_of b) }
{
    State::try_from(b).unwrap_or(State::I)
}

// Not I. A byte that is no state counts as I here: a step refuses it first.
pub fn is_valid(b: u8) -> bool
    ensures { result ≡ valid (or_invalid (state_of b)) }
{
    State::try_from(b).is_ok_and(State::is_valid)
}

// O or M; the same of a byte that is no state.
pub fn is_owner(b: u8) -> bool
    ensures { result ≡ owner (or_invalid (state_of b)) }
{
    State::try_from(b).is_ok_and(State::is_owner)
}
