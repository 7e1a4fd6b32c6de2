//! The forms of calls.
ghost use Rattle.std.specs.Prelude.{◌≡◌};
ghost use Rattle.cif_read.specs.Acts.{is_barred};

/// Which calls a reader knows: in the plain dialect those alone that stand at the top and only shift, in that of
/// other tools all: a call may turn and mirror, and stand in a definition.
#[derive(Clone, Copy)]
pub enum Dialect {
    Plain,
    Foreign,
}

impl Dialect {
    /// Whether a call is none of its forms, where it turns or mirrors, or stands in a definition.
    pub fn bars(self, turned: bool, inside: bool) -> bool
        ensures { result ≡ is_barred self turned inside }
    {
        match self {
            Dialect::Plain => turned || inside,
            Dialect::Foreign => false,
        }
    }
}
