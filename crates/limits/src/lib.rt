// 01's limits, the lengths of the work buffers, where their parts begin, and what stands for none: each such number of the code, once.
#![tactic(auto)]

// Records of a job, and strands: each has an entry in every part of the work buffers.
pub const RECORDS: usize = 4096;

pub const STRANDS: usize = 4096;

// Events of a job, bytes of its name, and tasks open at once, the root counted.
pub const EVENTS: usize = 1000000;

pub const NAME: usize = 64;

pub const OPEN_TASKS: usize = 64;

// The three work buffers are flat, with their parts behind one another, as the C interface has them.
// Labels: English of strand s at s, Hebrew at HEBREW_LABELS + s.
pub const LABELS: usize = 8192;

pub const HEBREW_LABELS: usize = 4096;

// Links: English next at s, Hebrew next at HEBREW_LINKS + s, and the back link of each order BACK behind its next link.
pub const LINKS: usize = 16384;

pub const HEBREW_LINKS: usize = 8192;

pub const BACK: usize = 4096;

// No strand, as a link holds it. A number and no Option, since the C interface shows what the buffer of links holds.
pub const NO_LINK: u16 = 65535;

// The same as a number, for a caller that reads a link as one. Here none does: a strand that there may be is an Option.
pub const NO_STRAND: usize = 65535;

// Places: the last write's event of record r at r, the standing read's at STANDING_READS + r, and the strand of each ITS_STRAND behind.
pub const PLACES: usize = 16384;

pub const STANDING_READS: usize = 8192;

pub const ITS_STRAND: usize = 4096;

// No access, for an event and its strand alike: a number too, as the C interface shows what the buffer of places holds.
pub const NO_PLACE: u32 = 4294967295;
