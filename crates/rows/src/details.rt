// The details, and which of them the 21 kinds allow: one fixed table.
ghost use Rattle.std.specs.Prelude.{◌≡◌};
ghost use Rattle.rules.specs.Class.{detail_allowed};
ghost use Rattle.rows.specs.Branches.{number};

// What a Branch does, which its detail says.
#[derive(Clone, Copy, Debug, PartialEq, Eq)]
pub enum Branch {
    Break,
    Continue,
    Goto,
    Fallthrough,
}

impl From<Branch> for u32 {
    ghost from_gives = { λ branch word. word ≡ number branch };

    fn from(branch: Branch) -> u32 {
        match branch {
            Branch::Break => 0,
            Branch::Continue => 1,
            Branch::Goto => 2,
            Branch::Fallthrough => 3,
        }
    }
}

// One byte for each kind: bit d is set exactly when detail d is allowed.
const DETAILS: [u8; 21] = [
    0b0001, // Bad
    0b0011, // Decl: 1 for VAR
    0b0001, // Empty
    0b0001, // Labeled
    0b0011, // Expr: 1 for a panic
    0b0001, // Send
    0b0001, // IncDec
    0b0011, // Assign: 1 for :=
    0b0001, // Go
    0b0001, // Defer
    0b0001, // Return
    0b1111, // Branch: break, continue, goto, fallthrough
    0b0001, // Block
    0b0011, // If: 1 with else
    0b0011, // Case: 1 for default
    0b0001, // Switch
    0b0001, // TypeSwitch
    0b0011, // Comm: 1 for default
    0b0001, // Select
    0b0011, // For: 1 with a condition
    0b0001, // Range
];

// Whether a row of this kind may have this detail.
pub fn detail_allowed(kind: u32, detail: u32) -> bool
    ensures { result ≡ detail_allowed kind detail }
{
    if 21 <= kind {
        return false; // past the table
    }
    let k = kind as usize;
    let byte = u32::from(DETAILS[k]);
    if 8 <= detail {
        return false; // past the byte
    }
    (byte >> detail) % 2 == 1
}
