// Bus commands and the two rule tables: the port's own, and the snoop table of the other holders.
ghost use Rattle.std.specs.Prelude.{◌≡◌};
ghost use Rattle.protocol.specs.State.{mode_of};
ghost use Rattle.protocol.specs.Rules.{sharing, sharing_owned, snooped, is_quiet, updates, ruled, alone, among};
ghost use Rattle.protocol.specs.Rules.{turned, read_hit, write_hit, rewrite_hit, hit, write_miss, miss, rule};

use crate::state::{Mode, State};
use words::access::Outcome;

// What a port says to the other holders, or a device to all: nothing; become S in a mode; that, and take the new word; become I; become write-back S,
// but an owner stays the owner, as O.
#[derive(Clone, Copy, Debug, PartialEq, Eq)]
pub enum Bus {
    Quiet,
    Share(Mode),
    Update(Mode),
    Invalidate,
    ShareOwned,
}

impl Bus {
    // Nothing goes over the bus.
    pub fn is_quiet(self) -> bool
        ensures { result ≡ is_quiet self }
    {
        matches!(self, Bus::Quiet)
    }

    // The command hands the new word to the holders.
    #[tactic(auto, unfolding(crate::specs::Rules::updates))]
    pub fn hands_word(self) -> bool
        ensures { result ≡ updates self }
    {
        matches!(self, Bus::Update(_))
    }
}

// A rule of the own table: the port's next state, what goes over the bus, and whether memory gets the line's word.
#[derive(Clone, Copy, Debug, PartialEq, Eq)]
pub struct Rule {
    pub own: State,
    pub bus: Bus,
    pub stores: bool,
}

// A holder becomes S in the mode m.
fn sharing(m: Mode, s: State) -> State
    ensures { result ≡ sharing m s }
{
    if s.is_valid() { State::S(m) } else { State::I }
}

// A holder becomes write-back S, but an owner stays the owner, as O.
fn sharing_owned(s: State) -> State
    ensures { result ≡ sharing_owned s }
{
    if s.is_owner() {
        State::O
    } else {
        sharing(Mode::Back, s)
    }
}

// The snoop table: what a holder's state becomes at a bus command.
#[tactic(auto, unfolding(crate::specs::Rules::snooped))]
pub fn snooped(bus: Bus, s: State) -> State
    ensures { result ≡ snooped bus s }
{
    match bus {
        Bus::Quiet => s,
        Bus::Share(m) | Bus::Update(m) => sharing(m, s),
        Bus::Invalidate => State::I,
        Bus::ShareOwned => sharing_owned(s),
    }
}

fn ruled(own: State, bus: Bus, stores: bool) -> Rule
    ensures { result ≡ ruled own bus stores }
{
    Rule { own, bus, stores }
}

// The only holder of a word that memory may lack: M; or, where memory gets it too, write-through E.
fn alone(m: Mode) -> State
    ensures { result ≡ alone m }
{
    match m {
        Mode::Back => State::M,
        Mode::Through => State::E(Mode::Through),
    }
}

// The port whose new word the other holders have too: O, or write-through S where memory has it.
fn among(m: Mode) -> State
    ensures { result ≡ among m }
{
    match m {
        Mode::Back => State::O,
        Mode::Through => State::S(Mode::Through),
    }
}

// The mode of a state; O and M are write back. I has none: this is asked of holders only.
fn mode_of(s: State) -> Mode
    ensures { result ≡ mode_of s }
{
    match s {
        State::I => Mode::Through,
        State::S(m) | State::E(m) => m,
        State::O | State::M => Mode::Back,
    }
}

// Below, m is the mode of the access, `shared` says that another port holds the line, and `dirty` that some port owns it, the port itself
// included.

// A read hit, or a swap hit that fails, of a line in another mode than m. (M is write back, so m is write through there.)
fn turned(m: Mode, dirty: bool, s: State) -> Rule
    ensures { result ≡ turned m dirty s }
{
    match s {
        State::I => ruled(State::I, Bus::Quiet, false),
        State::E(_) => ruled(State::E(m), Bus::Quiet, false),
        State::M => ruled(State::E(Mode::Through), Bus::Quiet, true),
        State::S(_) | State::O => ruled(State::S(m), Bus::Share(m), dirty & !m.is_back()),
    }
}

// A read hit, or a swap hit that fails: where the mode is m already, nothing changes.
fn read_hit(m: Mode, dirty: bool, s: State) -> Rule
    ensures { result ≡ read_hit m dirty s }
{
    if mode_of(s) == m {
        ruled(s, Bus::Quiet, false)
    } else {
        turned(m, dirty, s)
    }
}

// A write hit, or a swap hit that succeeds.
fn write_hit(m: Mode, shared: bool, s: State) -> Rule
    ensures { result ≡ write_hit m shared s }
{
    let through = !m.is_back();
    match s {
        State::I => ruled(State::I, Bus::Quiet, false),
        State::E(_) | State::M => ruled(alone(m), Bus::Quiet, through),
        State::S(_) | State::O if shared => ruled(among(m), Bus::Update(m), through),
        State::S(_) | State::O => ruled(alone(m), Bus::Update(m), through),
    }
}

// A write hit, or a swap hit that succeeds, that leaves the word as it was (a silent store): E stays E, in the mode of the access; any other
// state goes as where the word changes.
fn rewrite_hit(m: Mode, shared: bool, s: State) -> Rule
    ensures { result ≡ rewrite_hit m shared s }
{
    match s {
        State::E(_) => ruled(State::E(m), Bus::Quiet, !m.is_back()),
        State::I | State::S(_) | State::O | State::M => write_hit(m, shared, s),
    }
}

fn hit(k: Outcome, m: Mode, shared: bool, dirty: bool, s: State) -> Rule
    ensures { result ≡ hit k m shared dirty s }
{
    match k {
        Outcome::Reads => read_hit(m, dirty, s),
        Outcome::Writes => write_hit(m, shared, s),
        Outcome::Rewrites => rewrite_hit(m, shared, s),
    }
}

// A miss by a read, or a swap that fails.
fn read_miss(m: Mode, shared: bool, dirty: bool) -> Rule
    ensures { result ≡ miss Outcome.Reads m shared dirty }
{
    let own = if shared { State::S(m) } else { State::E(m) };
    match m {
        Mode::Back => ruled(own, Bus::ShareOwned, false),
        Mode::Through => ruled(own, Bus::Share(m), dirty),
    }
}

// A miss by a write, or a swap that succeeds, also where the word stays as it was.
fn write_miss(m: Mode) -> Rule
    ensures { result ≡ write_miss m }
{
    ruled(alone(m), Bus::Invalidate, !m.is_back())
}

// A miss. The word comes from an owner where the line is dirty, else from memory.
fn miss(k: Outcome, m: Mode, shared: bool, dirty: bool) -> Rule
    ensures { result ≡ miss k m shared dirty }
{
    match k {
        Outcome::Reads => read_miss(m, shared, dirty),
        Outcome::Writes | Outcome::Rewrites => write_miss(m),
    }
}

// The port's own table: the rule for a port that sees the line in the state s, I where its entry is of another line.
#[tactic(auto, unfolding(crate::specs::Rules::rule))]
pub fn own_rule(k: Outcome, m: Mode, shared: bool, dirty: bool, s: State) -> Rule
    ensures { result ≡ rule k m shared dirty s }
{
    if s.is_valid() {
        hit(k, m, shared, dirty, s)
    } else {
        miss(k, m, shared, dirty)
    }
}
