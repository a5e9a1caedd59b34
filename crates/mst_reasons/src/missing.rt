ghost use Rattle.std.specs.Prelude.{◌≡◌};
ghost use Rattle.mst_reasons.specs.Missing.{code_of, text_of};

/// What a promise names and the network hasn't, or that nothing is judged of it there.
#[derive(Clone, Copy)]
pub enum Missing {
    /// No bridge has the tree.
    Tree,
    /// No bridge has a name, or one that an item of a list is for.
    Bridge,
    /// No logical port is one that an item of a list is for.
    Port,
    /// No LAN has a name, or one that an item of a list is for.
    Lan,
    /// An item of a list has no failure after which the promise is judged.
    Failure,
}

impl Missing {
    /// The number of the refusal.
    pub fn code(self) -> &'static str
        ensures { result.now ≡ code_of self }
    {
        match self {
            Missing::Tree => "E03",
            Missing::Bridge => "E04",
            Missing::Port => "E05",
            Missing::Lan => "E06",
            Missing::Failure => "E17",
        }
    }

    /// What is printed after it: of the first four as in a script.
    pub fn text(self) -> &'static str
        ensures { result.now ≡ text_of self }
    {
        match self {
            Missing::Tree => "bad VID or tree",
            Missing::Bridge => "no such bridge",
            Missing::Port => "no such port",
            Missing::Lan => "no such LAN",
            Missing::Failure => "nothing to judge",
        }
    }
}
