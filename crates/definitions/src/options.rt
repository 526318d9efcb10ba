// Options as the opening tape and the comments give them, and the settings that follow from them.
ghost use Rattle.std.specs.Prelude.{◌≡◌, cond, ltb, Some, None};
ghost use Rattle.std.specs.Result.{result_ok};
ghost use Rattle.definitions.specs.Options.{mode_by, root_by};

use text::spans::Span;

// The flags of the opening tape, bit by bit.
#[derive(Clone, Copy, Default)]
pub struct Flags {
    pub jsx_plugin: bool,
    pub self_plugin: bool,
    pub source_plugin: bool,
    pub classic: bool,
    pub development: bool,
    pub throw_if_namespace: bool,
    pub pure: bool,
    pub module: bool,
}

// The options: flags, the JSX pragma pair, the import source, and the TypeScript pragma pair.
#[derive(Clone, Copy, Default)]
pub struct Options {
    pub flags: Flags,
    pub pragma: Option<Span>,
    pub pragma_frag: Option<Span>,
    pub import_source: Option<Span>,
    pub ts_pragma: Option<Span>,
    pub ts_pragma_frag: Option<Span>,
}

// The bindings mode.
#[derive(Clone, Copy, PartialEq, Eq)]
pub enum Mode {
    Module,
    Script,
    Classic,
}

// By its number, which `as u8` gives.
impl TryFrom<u8> for Mode {
    type Error = ();

    ghost try_from_gives = { λ n r. result_ok r ≡ cond (ltb n 3) (Some (mode_by n)) None };

    #[tactic(auto, unfolding(crate::specs::Options::mode_by))]
    fn try_from(number: u8) -> Result<Mode, ()> {
        match number {
            0 => Ok(Mode::Module),
            1 => Ok(Mode::Script),
            2 => Ok(Mode::Classic),
            _ => Err(()),
        }
    }
}

// What a pragma begins with: the default's `React`, `this`, `import.meta` or an identifier.
#[derive(Clone, Copy, PartialEq, Eq, Default)]
pub enum PragmaRoot {
    #[default]
    Default,
    This,
    ImportMeta,
    Identifier,
}

// By its number, which `as u8` gives.
impl TryFrom<u8> for PragmaRoot {
    type Error = ();

    ghost try_from_gives = { λ n r. result_ok r ≡ cond (ltb n 4) (Some (root_by n)) None };

    #[tactic(auto, unfolding(crate::specs::Options::root_by))]
    fn try_from(number: u8) -> Result<PragmaRoot, ()> {
        match number {
            0 => Ok(PragmaRoot::Default),
            1 => Ok(PragmaRoot::This),
            2 => Ok(PragmaRoot::ImportMeta),
            3 => Ok(PragmaRoot::Identifier),
            _ => Err(()),
        }
    }
}

// A pragma's root and how many parts follow it. (The parts themselves are in the text.)
#[derive(Clone, Copy, PartialEq, Eq, Default)]
pub struct Form {
    pub root: PragmaRoot,
    pub tail: usize,
}

// The first part of a pragma that fails: where it begins, and its length.
#[derive(Clone, Copy)]
pub struct InvalidPart {
    pub place: usize,
    pub len: usize,
}

// The options in force and what follows from them: whether calls are pure, the bindings mode and the forms of both pragmas.
#[derive(Clone, Copy)]
pub struct Settings {
    pub options: Options,
    pub pure: bool,
    pub mode: Mode,
    pub pragma: Form,
    pub pragma_frag: Form,
}
