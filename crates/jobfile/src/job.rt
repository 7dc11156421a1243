// What an accepted file gives, and the two parts of the file that it tells.
ghost use Rattle.std.specs.Prelude.{◌+◌, ◌*◌, ◌≤◌, length};
ghost use Rattle.jobfile.specs.Part.{Part};

// Where the events start, which is the name's length, how many they are, the record count, and how many strands begin.
#[derive(Clone, Copy, Debug, PartialEq, Eq)]
pub struct Job {
    pub start: usize,
    pub events: usize,
    pub records: usize,
    pub strands: usize,
}

impl Job {
    // The name of its file.
    // requires: the name is there, as in the file that the check was given.
    pub fn name<'a>(&self, file: &'a [u8]) -> &'a [u8]
        requires { self.now.start ≤ length file.now }
        ensures { Part result file.entry 0 self.now.start }
    {
        &file[..self.start]
    }

    // The events of its file, four bytes each.
    // requires: the events are there, as in the file that the check was given.
    pub fn part<'a>(&self, file: &'a [u8]) -> &'a [u8]
        requires { self.now.start + 4 * self.now.events ≤ length file.now }
        ensures { Part result file.entry self.now.start (4 * self.now.events) }
    {
        let end = self.start + 4 * self.events;
        &file[self.start..end]
    }
}
