// What a row is, as its class: the classes are those that the rules tell apart, and a Block right
// after a switch or Select is the Block of it.
#![tactic(auto)]

ghost use Rattle.std.specs.Prelude.{◌≡◌, ◌<◌};
ghost use Rattle.rules.specs.Rows.{row_count};
ghost use Rattle.rules.specs.Class.{base, class};
ghost use Rattle.rules.specs.Body.{Detailed};
ghost use Rattle.classes.specs.Classes.{class_is};

use crate::Class::*;
use rows::RowNumber;

// A class for each kind and detail that some rule tells apart.
#[derive(Clone, Copy, Debug, PartialEq, Eq)]
pub enum Class {
    // Bad, Decl but VAR, Expr but a panic, Send, IncDec, Assign but `:=`, Go and Defer
    Plain,
    // VAR and `:=`
    Declaration,
    Empty,
    Labeled,
    // Return and a panic
    Stop,
    Break,
    Continue,
    Goto,
    Fallthrough,
    Block,
    // the Block of either switch
    CaseBlock,
    // the Block of a Select
    CommBlock,
    If,
    IfElse,
    Case,
    DefaultCase,
    Comm,
    DefaultComm,
    Switch,
    TypeSwitch,
    Select,
    // For without a condition
    For,
    // For with a condition, and Range
    ForCond,
}

// The class of each kind with each detail, four details a kind. Plain stands where the detail isn't
// allowed.
const CLASSES: [[Class; 4]; 21] = [
    [Plain, Plain, Plain, Plain], // Bad
    [Plain, Declaration, Plain, Plain], // Decl
    [Empty, Plain, Plain, Plain], // Empty
    [Labeled, Plain, Plain, Plain], // Labeled
    [Plain, Stop, Plain, Plain], // Expr
    [Plain, Plain, Plain, Plain], // Send
    [Plain, Plain, Plain, Plain], // IncDec
    [Plain, Declaration, Plain, Plain], // Assign
    [Plain, Plain, Plain, Plain], // Go
    [Plain, Plain, Plain, Plain], // Defer
    [Stop, Plain, Plain, Plain], // Return
    [Break, Continue, Goto, Fallthrough], // Branch
    [Block, Plain, Plain, Plain], // Block
    [If, IfElse, Plain, Plain], // If
    [Case, DefaultCase, Plain, Plain], // Case
    [Switch, Plain, Plain, Plain], // Switch
    [TypeSwitch, Plain, Plain, Plain], // TypeSwitch
    [Comm, DefaultComm, Plain, Plain], // Comm
    [Select, Plain, Plain, Plain], // Select
    [For, ForCond, Plain, Plain], // For
    [ForCond, Plain, Plain, Plain], // Range
];

// The class by the row's own words.
fn own_class(rows: &[u32], row: RowNumber) -> Class
    requires { (row.0 < row_count rows.now) × Detailed rows.now }
    ensures { class_is result ≡ base rows.now row.0 }
{
    let kind = rows::kind(rows, row) as usize;
    let detail = rows::detail(rows, row) as usize;
    CLASSES[kind][detail]
}

// The row's class.
pub fn class_of(rows: &[u32], row: RowNumber) -> Class
    requires { (row.0 < row_count rows.now) × Detailed rows.now }
    ensures { class_is result ≡ class rows.now row.0 }
{
    let own = own_class(rows, row);
    if own != Class::Block || row.0 == 0 {
        return own;
    }
    match own_class(rows, RowNumber(row.0 - 1)) {
        Class::Switch | Class::TypeSwitch => Class::CaseBlock,
        Class::Select => Class::CommBlock,
        _ => Class::Block,
    }
}
