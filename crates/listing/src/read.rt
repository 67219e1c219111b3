//! Reading a list.
ghost use Rattle.listing.specs.Items.{keyword_next, PlanMade, Tells, plan_at, burst_at, item_at};
ghost use Rattle.listing.specs.Lists.{Says, Refuses};
ghost use Rattle.listing.specs.declared.refusal.Refusal.TheVariants.{Field};
ghost use Rattle.axi.specs.Bursts.{burst_fits};
ghost use Rattle.std.specs.Prelude.{◌≡◌, if◌then◌else◌, Ok, Err, MatchResult};
ghost use Rattle.words.specs.Cursors.{text};

use crate::item::Item;
use crate::refusal::{ListFault, Refusal};
use axi::burst::Burst;
use axi::plan::Plan;
use sections::entry::Entry;
use sections::line::Settings;
use std::alloc::Global;
use words::cursor::Cursor;
use words::word::Word;

/// Whether the next word is a keyword. The caller's cursor stays.
fn at_keyword(mut cursor: Cursor) -> bool
    ensures { result ≡ keyword_next (text cursor.entry) cursor.entry.at }
{
    matches!(cursor.word(), Ok(Word::Keyword(_)))
}

/// The plan with the settings of this line, if there is one.
fn plan_of(settings: Settings, line: usize) -> Result<Plan, Refusal>
    ensures { PlanMade settings line result }
{
    Plan::try_from(settings).map_err(|refusal| Refusal::Plan(refusal, line))
}

/// The burst of this line, if its wires can carry every field.
fn fitting(burst: Burst, line: usize) -> Result<Burst, Refusal>
    ensures { result ≡ (if burst_fits burst then Ok burst else Err (Field line)) }
{
    burst.fits().then_some(burst).ok_or(Refusal::Field(line))
}

/// The plan of a line, which the cursor passes.
fn plan_line(cursor: &mut Cursor) -> Result<Plan, Refusal>
    ensures { Tells plan_at cursor.old cursor.new result }
{
    let line = cursor.line();
    plan_of(Settings::read(cursor)?, line)
}

// Like `plan_line`, by other calls: one function of both would take the calls and their contracts as parameters.
/// The burst of a line, which the cursor passes.
fn burst_line(cursor: &mut Cursor) -> Result<Burst, Refusal>
    ensures { Tells burst_at cursor.old cursor.new result }
{
    let line = cursor.line();
    fitting(Burst::read(cursor)?, line)
}

/// What a line says under the plan in force: a plan if it begins with a keyword, otherwise a burst.
pub fn read_line(plan: Plan, cursor: &mut Cursor) -> Result<Item, Refusal>
    ensures { Tells (item_at plan) cursor.old cursor.new result }
{
    if at_keyword(*cursor) {
        Ok(Item::Bridge(plan_line(cursor)?))
    } else {
        Ok(Item::Burst(plan, burst_line(cursor)?))
    }
}

/// What each line of the list says, or why the first bad one is refused. The first line is a plan.
pub fn read_items(heap: Global, list: &[u8]) -> Result<Vec<Item>, ListFault>
    ensures { MatchResult result (λ v. Says list.now v.items) (λ e. Refuses list.now e) }
{
    let mut items = Vec::new(heap);
    let mut cursor = Cursor::new(list);
    let mut plan = plan_line(&mut cursor)?;
    items.push(Item::Bridge(plan))?;
    // The cursor itself says whether a line is left.
    while !cursor.at_end() {
        let item = read_line(plan, &mut cursor)?;
        items.push(item)?;
        plan = item.plan();
    }
    Ok(items)
}
