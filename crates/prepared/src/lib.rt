// A task with its tables filled, and each of its sections as text: those of its spaces, and the closing one behind them.
#![tactic(auto)]

ghost use Rattle.std.specs.Prelude.{◌≡◌, ◌≤◌, length};
ghost use Rattle.model.specs.Card as model;
ghost use Rattle.model.specs.Calls.{output_bytes};
ghost use Rattle.model.specs.Lines.{section_lines};
ghost use Rattle.model.specs.Text.{text};
ghost use Rattle.card.specs.Represents.{arities_of, schemas_of, task_of, Represented};
ghost use Rattle.properties.specs.Represented.{AritiesRight, SchemasSmall};
ghost use Rattle.properties.specs.Parameters.{parameters_in, RoomForBags};
ghost use Rattle.text.specs.Written.{Writes};
ghost use Rattle.space_lines.specs.OwnLines.{space_bytes};
ghost use Rattle.prepared.specs.Prepared.{rows_at_most, PreparedOf};
ghost use Rattle.prepared.specs.Found.{SpaceReady, SpaceFound, SomeFound, FoundIn, SectionReady};
ghost use Rattle.prepared.specs.Found.{analysis_at, found_lines, rescue_lines, found_totals};

use analysis::rescue::rescue;
use analysis::{Analysed, analyse};
use card::{ArityList, SchemaList, Task};
use properties::arities::property_arities;
use properties::parameters::{parameter_bags, parameters_of};
use properties::{numbered, object_bags};
use space_lines::write_space;
use spaces::own::{Own, own_properties};
use spaces::{Spaces, spaces_of};
use text::kinds::Kind;
use totals::enter_totals;

// What is known of a task beside its tables: how many parameters its schemas have together, how many properties, the arity of each
// property's predicate, and its spaces.
#[derive(Clone, Copy)]
pub struct Prepared {
    pub parameters: usize,
    pub properties: usize,
    pub arities: [u8; 60],
    pub spaces: Spaces,
}

// How many rows the tables of a task's parameters, and of the moves of one of its spaces, take at most: by its predicates and schemas.
pub fn rows_at_most(predicates: ArityList, schemas: SchemaList) -> usize
    requires arities_right { AritiesRight predicates }
    requires schemas_small { SchemasSmall schemas }
    ensures { (t : model.Task)
        → t.arities ≡ arities_of predicates
        → t.schemas ≡ schemas_of (arities_of predicates) schemas
        → result ≡ rows_at_most t }
{
    let parameters = parameters_of(schemas);
    let properties = numbered(predicates).count;
    parameters + properties
}

// Fills the tables of a task: the bags of its parameters in three, the initial bags of its objects in the fourth.
pub fn prepare(
    task: Task,
    preconditions: &mut [u8],
    deletes: &mut [u8],
    adds: &mut [u8],
    counts: &mut [u16],
) -> Prepared
    requires represented { Represented task (task_of task) }
    requires room_for_bags { RoomForBags (parameters_in (task_of task).schemas) preconditions.old deletes.old adds.old }
    requires in_bounds { 3840 ≤ length counts.old }
    ensures { PreparedOf
        (task_of task)
        result
        preconditions.old
        deletes.old
        adds.old
        counts.old
        preconditions.new
        deletes.new
        adds.new
        counts.new }
{
    let parameters = parameter_bags(task.predicates, task.schemas, preconditions, deletes, adds);
    object_bags(task.predicates, task.objects, task.facts, counts);
    let properties = numbered(task.predicates).count;
    let arities = property_arities(task.predicates);
    let spaces = spaces_of(
        preconditions,
        deletes,
        adds,
        counts,
        parameters,
        properties,
        task.objects,
    );
    Prepared {
        parameters,
        properties,
        arities,
        spaces,
    }
}

// A space's own properties, and its analysis. Its conditions are in the table that was lent for them.
#[derive(Clone, Copy)]
pub struct Found {
    pub own: Own,
    pub analysed: Analysed,
}

// The analysis of the space with this number. Three tables are lent for its moves and its conditions.
pub fn analyse_space(
    number: usize,
    prepared: Prepared,
    deletes: &[u8],
    adds: &[u8],
    counts: &[u16],
    starts: &mut [u8],
    finishes: &mut [u8],
    conditions: &mut [u16],
) -> Found
    requires { SpaceReady number prepared deletes.now adds.now counts.now starts.old finishes.old conditions.old }
    ensures { SpaceFound
        number
        prepared
        deletes.now
        adds.now
        counts.now
        result
        starts.old
        finishes.old
        conditions.old
        starts.new
        finishes.new
        conditions.new }
{
    let own = own_properties(
        &prepared.spaces.groups,
        prepared.properties,
        prepared.spaces.lowest[number],
    );
    let analysed = analyse(
        &own.properties[..own.count],
        prepared.spaces.members[number],
        prepared.parameters,
        deletes,
        adds,
        counts,
        starts,
        finishes,
        conditions,
    );
    Found { own, analysed }
}

// The lines of a space that was analysed.
fn write_found(
    out: &mut [u8],
    number: usize,
    prepared: Prepared,
    found: Found,
    conditions: &[u16],
) -> usize
    requires some_found { SomeFound number prepared found conditions.now }
    requires space_bytes_in_bounds { space_bytes ≤ length out.old }
    ensures { Writes (text (found_lines number prepared found conditions.now)) out.old out.new result }
{
    write_space(
        out,
        number,
        found.analysed.kind,
        &found.own.properties[..found.own.count],
        prepared.spaces.members[number],
        conditions,
        found.analysed.count,
        &prepared.arities,
    )
}

// The lines of what is left of a mixed space without its hidden attributes; none if it is not listed. The tables are lent for its analysis.
fn write_rescue(
    out: &mut [u8],
    number: usize,
    prepared: Prepared,
    found: Found,
    deletes: &[u8],
    adds: &[u8],
    counts: &[u16],
    starts: &mut [u8],
    finishes: &mut [u8],
    conditions: &mut [u16],
) -> usize
    requires section_ready { SectionReady number prepared found deletes.now adds.now counts.now starts.old finishes.old conditions.old }
    requires space_bytes_in_bounds { space_bytes ≤ length out.old }
    ensures { (t : model.Task)
        → FoundIn t number prepared found deletes.now adds.now counts.now conditions.old
        → Writes (text (rescue_lines t number)) out.old out.new result }
{
    let members = prepared.spaces.members[number];
    let parameters = prepared.parameters;
    let Some(rescued) = rescue(
        found.own,
        members,
        found.analysed.hidden,
        parameters,
        deletes,
        adds,
        counts,
        starts,
        finishes,
        conditions,
    ) else {
        return 0;
    };
    write_space(
        out,
        number,
        Kind::Rescued,
        &rescued.own.properties[..rescued.own.count],
        rescued.members,
        conditions,
        rescued.count,
        &prepared.arities,
    )
}

// The section of a space that was analysed: its lines and, behind the `S` line of a mixed space, those of its rescue. The tables of its
// analysis are lent for that of the rescue.
pub fn write_space_section(
    out: &mut [u8],
    number: usize,
    prepared: Prepared,
    found: Found,
    deletes: &[u8],
    adds: &[u8],
    counts: &[u16],
    starts: &mut [u8],
    finishes: &mut [u8],
    conditions: &mut [u16],
) -> usize
    requires section_ready { SectionReady number prepared found deletes.now adds.now counts.now starts.old finishes.old conditions.old }
    requires output_bytes_in_bounds { output_bytes ≤ length out.old }
    ensures { (t : model.Task)
        → FoundIn t number prepared found deletes.now adds.now counts.now conditions.old
        → Writes (text (section_lines t number (analysis_at t number))) out.old out.new result }
{
    let at = write_found(out, number, prepared, found, conditions);
    match found.analysed.kind {
        Kind::Mixed => {
            let n = write_rescue(
                &mut out[at..],
                number,
                prepared,
                found,
                deletes,
                adds,
                counts,
                starts,
                finishes,
                conditions,
            );
            at + n
        }
        _ => at,
    }
}

// The totals of a space that was analysed are entered.
pub fn enter_space(
    fixed: &mut [u32],
    number: usize,
    prepared: Prepared,
    found: Found,
    conditions: &[u16],
)
    requires some_found { SomeFound number prepared found conditions.now }
    requires fixed_len { length fixed.old ≡ 60 }
    ensures { fixed.new ≡ found_totals number prepared found conditions.now fixed.old }
{
    let own = &found.own.properties[..found.own.count];
    let members = masks::size(prepared.spaces.members[number]);
    enter_totals(fixed, own, conditions, found.analysed.count, members);
}
