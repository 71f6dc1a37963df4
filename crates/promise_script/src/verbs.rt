//! The first words of lines.
ghost use Rattle.std.specs.Prelude.{◌≡◌};
ghost use Rattle.promise_script.specs.Decode.{maker_read, combiner_read, user_read, other_read, verb_read};

/// The commands that make a promise of no other promise.
#[derive(Clone, Copy)]
pub enum Maker {
    Now,
    Fail,
    Later,
    Last,
    Pair,
    Empty,
}

/// The commands that make a promise of others.
#[derive(Clone, Copy)]
pub enum Combiner {
    Then,
    Chain,
    Eager,
    Fork,
    Branch,
    Race,
    All,
    Fast,
}

/// The commands that make no promise.
#[derive(Clone, Copy)]
pub enum User {
    Fulfil,
    Reject,
    DropCell,
    Detach,
    Set,
    Add,
    Clear,
    Canceler,
    Cancel,
    Drop,
}

/// What a line that means something begins with.
#[derive(Clone, Copy)]
pub enum Verb {
    Make(Maker),
    Combine(Combiner),
    Use(User),
    Limits,
    Turn,
    Run,
    Wait,
    Step,
    Value,
    Throw,
    Promise,
    Input,
}

pub fn read_maker(word: &[u8]) -> Option<Maker>
    ensures { result ≡ maker_read word.now }
{
    match word {
        b"now" => Some(Maker::Now),
        b"fail" => Some(Maker::Fail),
        b"later" => Some(Maker::Later),
        b"last" => Some(Maker::Last),
        b"pair" => Some(Maker::Pair),
        b"empty" => Some(Maker::Empty),
        _ => None,
    }
}

pub fn read_combiner(word: &[u8]) -> Option<Combiner>
    ensures { result ≡ combiner_read word.now }
{
    match word {
        b"then" => Some(Combiner::Then),
        b"chain" => Some(Combiner::Chain),
        b"eager" => Some(Combiner::Eager),
        b"fork" => Some(Combiner::Fork),
        b"branch" => Some(Combiner::Branch),
        b"race" => Some(Combiner::Race),
        b"all" => Some(Combiner::All),
        b"fast" => Some(Combiner::Fast),
        _ => None,
    }
}

pub fn read_user(word: &[u8]) -> Option<User>
    ensures { result ≡ user_read word.now }
{
    match word {
        b"fulfil" => Some(User::Fulfil),
        b"reject" => Some(User::Reject),
        b"dropcell" => Some(User::DropCell),
        b"detach" => Some(User::Detach),
        b"set" => Some(User::Set),
        b"add" => Some(User::Add),
        b"clear" => Some(User::Clear),
        b"canceler" => Some(User::Canceler),
        b"cancel" => Some(User::Cancel),
        b"drop" => Some(User::Drop),
        _ => None,
    }
}

pub fn read_verb(word: &[u8]) -> Option<Verb>
    ensures { result ≡ verb_read word.now }
{
    if let Some(maker) = read_maker(word) {
        return Some(Verb::Make(maker));
    }
    if let Some(combiner) = read_combiner(word) {
        return Some(Verb::Combine(combiner));
    }
    if let Some(user) = read_user(word) {
        return Some(Verb::Use(user));
    }
    read_other(word)
}

// The first words of lines that are no commands.
fn read_other(word: &[u8]) -> Option<Verb>
    ensures { result ≡ other_read word.now }
{
    match word {
        b"limits" => Some(Verb::Limits),
        b"turn" => Some(Verb::Turn),
        b"run" => Some(Verb::Run),
        b"wait" => Some(Verb::Wait),
        b"step" => Some(Verb::Step),
        b"value" => Some(Verb::Value),
        b"throw" => Some(Verb::Throw),
        b"promise" => Some(Verb::Promise),
        b"input" => Some(Verb::Input),
        _ => None,
    }
}
