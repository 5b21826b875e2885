// The 21 kinds, and which of them a break and a continue need.
ghost use Rattle.std.specs.Prelude.{◌≡◌, true, ℕ, ◌<◌};
ghost use Rattle.rules.specs.Class.{is_loop, is_breakable, is_statement, detail_allowed, class_of};
ghost use Rattle.rules.specs.Scope.{holds_items};
ghost use Rattle.rows.specs.Kinds.{number, Numbers};

// The kind of a row, after goscript's enum `Stmt`.
#[derive(Clone, Copy, Debug, PartialEq, Eq)]
pub enum Kind {
    Bad,
    Decl,
    Empty,
    Labeled,
    Expr,
    Send,
    IncDec,
    Assign,
    Go,
    Defer,
    Return,
    Branch,
    Block,
    If,
    Case,
    Switch,
    TypeSwitch,
    Comm,
    Select,
    For,
    Range,
}

// A word that is the number of no kind.
#[derive(Clone, Copy, Debug, PartialEq, Eq)]
pub struct NoKind;

impl TryFrom<u32> for Kind {
    type Error = NoKind;

    ghost try_from_gives = { Numbers };

    fn try_from(word: u32) -> Result<Self, NoKind> {
        if 21 <= word {
            return Err(NoKind);
        }
        Ok(Kind::numbered(word))
    }
}

impl From<Kind> for u32 {
    ghost from_gives = { λ kind word. word ≡ number kind };

    fn from(kind: Kind) -> u32 {
        match kind {
            Kind::Bad => 0,
            Kind::Decl => 1,
            Kind::Empty => 2,
            Kind::Labeled => 3,
            Kind::Expr => 4,
            Kind::Send => 5,
            Kind::IncDec => 6,
            Kind::Assign => 7,
            Kind::Go => 8,
            Kind::Defer => 9,
            Kind::Return => 10,
            Kind::Branch => 11,
            Kind::Block => 12,
            Kind::If => 13,
            Kind::Case => 14,
            Kind::Switch => 15,
            Kind::TypeSwitch => 16,
            Kind::Comm => 17,
            Kind::Select => 18,
            Kind::For => 19,
            Kind::Range => 20,
        }
    }
}

impl Kind {
    // The kind of this number, of the 21.
    pub(crate) fn numbered(word: u32) -> Kind
        requires { word < 21 }
        ensures { number result ≡ word }
    {
        match word {
            0 => Kind::Bad,
            1 => Kind::Decl,
            2 => Kind::Empty,
            3 => Kind::Labeled,
            4 => Kind::Expr,
            5 => Kind::Send,
            6 => Kind::IncDec,
            7 => Kind::Assign,
            8 => Kind::Go,
            9 => Kind::Defer,
            10 => Kind::Return,
            11 => Kind::Branch,
            12 => Kind::Block,
            13 => Kind::If,
            14 => Kind::Case,
            15 => Kind::Switch,
            16 => Kind::TypeSwitch,
            17 => Kind::Comm,
            18 => Kind::Select,
            19 => Kind::For,
            _ => Kind::Range,
        }
    }

    // For and Range, which a continue needs.
    pub fn is_loop(self) -> bool
        ensures { (d : ℕ) → detail_allowed (number self) d ≡ true → result ≡ is_loop (class_of (number self) d) }
    {
        matches!(self, Kind::For | Kind::Range)
    }

    // Either switch, Select, For and Range, which a break needs.
    pub fn is_breakable(self) -> bool
        ensures { (d : ℕ) → detail_allowed (number self) d ≡ true → result ≡ is_breakable (class_of (number self) d) }
    {
        matches!(
            self,
            Kind::Switch | Kind::TypeSwitch | Kind::Select | Kind::For | Kind::Range
        )
    }

    // Whether a row of this kind may be an item of a list: no Case and no Comm.
    pub fn is_statement(self) -> bool
        ensures { (d : ℕ) → detail_allowed (number self) d ≡ true → result ≡ is_statement (class_of (number self) d) }
    {
        self != Kind::Case && self != Kind::Comm
    }

    // Whether a row of this kind holds items: Block, Case or Comm.
    pub fn holds_items(self) -> bool
        ensures { (d : ℕ) → detail_allowed (number self) d ≡ true → result ≡ holds_items (class_of (number self) d) }
    {
        matches!(self, Kind::Block | Kind::Case | Kind::Comm)
    }
}

// Whether a continue needs a row of the kind of this number, which may be that of none.
pub fn is_loop(kind: u32) -> bool
    ensures { (d : ℕ) → detail_allowed kind d ≡ true → result ≡ is_loop (class_of kind d) }
{
    match Kind::try_from(kind) {
        Ok(kind) => kind.is_loop(),
        Err(_) => false,
    }
}

// The same for a break.
pub fn is_breakable(kind: u32) -> bool
    ensures { (d : ℕ) → detail_allowed kind d ≡ true → result ≡ is_breakable (class_of kind d) }
{
    match Kind::try_from(kind) {
        Ok(kind) => kind.is_breakable(),
        Err(_) => false,
    }
}
