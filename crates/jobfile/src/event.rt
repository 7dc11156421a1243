// What an event is: one of five things, what it does to the structure of tasks, and what it does to a record.
// All that is built on events asks one of the last two, so that a further kind of event is a clause in each of the two functions here.
ghost use Rattle.std.specs.Prelude.{◌≡◌};
ghost use Rattle.jobfile.specs.Events.{move_of, access_of};

// One of five things; two carry a record.
#[derive(Clone, Copy, Debug, PartialEq, Eq)]
pub enum Event {
    Spawn,
    End,
    Sync,
    Read(u16),
    Write(u16),
}

// What an event does to the structure: it opens a spawned task, closes the current one, joins what the current one has spawned, or
// nothing.
#[derive(Clone, Copy, Debug, PartialEq, Eq)]
pub enum Move {
    Opens,
    Closes,
    Joins,
    Stays,
}

// How a record is accessed.
#[derive(Clone, Copy, Debug, PartialEq, Eq)]
pub enum Kind {
    Write,
    Read,
}

// An access to a record.
#[derive(Clone, Copy, Debug, PartialEq, Eq)]
pub struct Access {
    pub kind: Kind,
    pub record: u16,
}

// What an event does to the structure.
pub fn move_of(e: Event) -> Move
    ensures { result ≡ move_of e }
{
    match e {
        Event::Spawn => Move::Opens,
        Event::End => Move::Closes,
        Event::Sync => Move::Joins,
        Event::Read(_) => Move::Stays,
        Event::Write(_) => Move::Stays,
    }
}

// What an event does to a record: nothing, or an access to it.
pub fn access_of(e: Event) -> Option<Access>
    ensures { result ≡ access_of e }
{
    match e {
        Event::Spawn => None,
        Event::End => None,
        Event::Sync => None,
        Event::Read(record) => Some(Access {
            kind: Kind::Read,
            record,
        }),
        Event::Write(record) => Some(Access {
            kind: Kind::Write,
            record,
        }),
    }
}
