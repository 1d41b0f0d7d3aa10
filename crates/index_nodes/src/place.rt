ghost use Rattle.std.specs.Prelude.{◌≡◌};
ghost use Rattle.index_nodes.specs.Places.{priority_of};
ghost use Rattle.index_nodes.specs.Runs.{start_of};

/// The place of a value in a file. It knows how many values of its node are left from there on.
#[derive(Clone, Copy)]
pub struct Place {
    pub(crate) start: usize,
    pub(crate) left: u32,
    pub(crate) priority: u32,
}

impl Place {
    /// Returns the priority of the value.
    pub fn priority(&self) -> u32
        ensures { result ≡ priority_of self.now }
    {
        self.priority
    }

    /// Returns where the value begins.
    pub fn start(&self) -> usize
        ensures { result ≡ start_of self.now }
    {
        self.start
    }
}
