// What goscript hands down the label walk as `StmtBranchesContext`: the latest declaration of the
// list, and its current label. A row is written as 1 + its number, and 0 stands for none; the walk
// keeps those of all lists in a table, where two bytes are enough for a row.
#![tactic(auto)]

ghost use Rattle.std.specs.Prelude.{◌≡◌};
ghost use Rattle.context.specs.Fields.{with_latest, with_label};

#[derive(Clone, Copy, Debug, PartialEq, Eq)]
pub struct Context<T> {
    pub latest: T,
    pub label: T,
}

// goscript's `record_var_decl`: the latest declaration is this one.
pub fn record_var_decl<T: Copy>(ctx: &mut Context<T>, word: T)
    ensures { ctx.new ≡ with_latest ctx.old word }
{
    ctx.latest = word;
}

// goscript's `ctx.lstmt = Some(..)`: the current label is this one.
pub fn set_label<T: Copy>(ctx: &mut Context<T>, word: T)
    ensures { ctx.new ≡ with_label ctx.old word }
{
    ctx.label = word;
}

// `record_var_decl` by value: it is lent a local.
pub fn declared<T: Copy>(mut ctx: Context<T>, word: T) -> Context<T>
    ensures { result ≡ with_latest ctx word }
{
    record_var_decl(&mut ctx, word);
    ctx
}

// `set_label` by value: it is lent a local.
pub fn labelled<T: Copy>(mut ctx: Context<T>, word: T) -> Context<T>
    ensures { result ≡ with_label ctx word }
{
    set_label(&mut ctx, word);
    ctx
}
