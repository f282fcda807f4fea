//! SELECT resolved.
ghost use Rattle.std.specs.Prelude.{◌≡◌, [], IfOk};
ghost use Rattle.ent_value.specs.Refusal.{Gives};
ghost use Rattle.ent_form.specs.Bindings.{bound_in};
ghost use Rattle.ent_form.specs.Lookup.{operands_in};
ghost use Rattle.ent_form.specs.Ordinary.{tests_in, items_from, all_shown, items_in, select_in};
ghost use Rattle.ent_form.specs.Seen.{scope_of, shown_of};

use crate::binding::Bindings;
use crate::catalogue::Catalogue;
use crate::fault::FormFault;
use crate::lookup::{operand, test};
use crate::scope::{SeenSources, sources};
use ent_semantics::{Known, Operand as ResolvedOperand, Select as ResolvedSelect};
use ent_tree::{Items, MOST_PARTS, Operand, Select, Test};
use ent_value::{Kind, Limited, Refusal, Sequence};
use std::alloc::{AllocError, Global};

/// The items of a SELECT, and the kind of each.
#[derive(Drop)]
pub(crate) struct Shown {
    pub items: Sequence<ResolvedOperand<Known>>,
    pub kinds: Sequence<Kind>,
}

/// The tests of a WHERE, from left to right.
#[tactic(auto, unfolding(crate::specs::Ordinary::tests_in))]
pub(crate) fn tests(
    alloc: Global,
    sources: &SeenSources<'_>,
    bindings: &Bindings,
    tests: &Limited<Test<Operand>, MOST_PARTS>,
) -> Result<Limited<Test<ResolvedOperand<Known>>, MOST_PARTS>, Refusal<FormFault>>
    ensures { Gives (λ forms. forms) result (tests_in (scope_of sources.now) (bound_in bindings.now) tests.now) }
{
    let mut forms = Limited::with_capacity(alloc, tests.len())?;
    for one in tests.as_slice() {
        forms.push(test(alloc, sources, bindings, one)?)?;
    }
    Ok(forms)
}

/// All columns of the sources, in order.
fn every_column(alloc: Global, sources: &SeenSources<'_>) -> Result<Shown, AllocError>
    ensures { IfOk result (λ shown. shown_of shown ≡ all_shown (scope_of sources.now)) }
{
    let mut items = Sequence::with_capacity(alloc, sources.columns.len())?;
    let mut kinds = Sequence::new(alloc);
    for (number, column) in sources.columns.iter().enumerate() {
        items.push(ResolvedOperand::Column(number))?;
        kinds.push(column.schema.kind)?;
    }
    Ok(Shown { items, kinds })
}

fn listed_items(
    alloc: Global,
    sources: &SeenSources<'_>,
    bindings: &Bindings,
    listed: &[Operand],
) -> Result<Shown, Refusal<FormFault>>
    ensures { let lookup = operands_in (scope_of sources.now) (bound_in bindings.now) in
        Gives shown_of result (items_from lookup ([], []) listed.now) }
{
    let mut items = Sequence::with_capacity(alloc, listed.len())?;
    let mut kinds = Sequence::new(alloc);
    for item in listed {
        let (form, kind) = operand(alloc, sources, bindings, item)?;
        items.push(form)?;
        kinds.push(kind)?;
    }
    Ok(Shown { items, kinds })
}

fn items(
    alloc: Global,
    sources: &SeenSources<'_>,
    bindings: &Bindings,
    items: &Items,
) -> Result<Shown, Refusal<FormFault>>
    ensures { Gives shown_of result (items_in (scope_of sources.now) (bound_in bindings.now) items.now) }
{
    match items {
        Items::All => Ok(every_column(alloc, sources)?),
        Items::Listed(listed) => listed_items(alloc, sources, bindings, listed.as_slice()),
    }
}

/// A SELECT, and the kinds of its items: its sources, then its WHERE, then its items.
#[tactic(auto, unfolding(crate::specs::Ordinary::select_in))]
pub(crate) fn select(
    alloc: Global,
    catalogue: &Catalogue,
    bindings: &Bindings,
    select: &Select,
) -> Result<(ResolvedSelect<Known>, Sequence<Kind>), Refusal<FormFault>>
    ensures { Gives (λ found. found) result (select_in catalogue.now.tables (bound_in bindings.now) select.now) }
{
    let sources = sources(alloc, catalogue, &select.sources)?;
    let tests = tests(alloc, &sources, bindings, &select.tests)?;
    let shown = items(alloc, &sources, bindings, &select.items)?;
    let form = ResolvedSelect {
        sources: sources.tables,
        items: shown.items,
        tests,
    };
    Ok((form, shown.kinds))
}
