// The objects that each parameter may stand for: the `R` lines.
ghost use Rattle.std.specs.Prelude.{◌≡◌, ℕ, ◌+◌, ◌*◌, ◌≤◌, ◌<◌, length, get_or};
ghost use Rattle.model.specs.Lines.{type_lines};
ghost use Rattle.model.specs.Spaces as model;
ghost use Rattle.model.specs.Text.{text};
ghost use Rattle.card.specs.Represents.{task_of, Represented};
ghost use Rattle.spaces.specs.SpaceTable.{SpacesOf};
ghost use Rattle.closing.specs.Typing.{label_masks, typed_lines, MembersGiven, PreconditionRows};
ghost use Rattle.text.specs.Room.{Room};
ghost use Rattle.text.specs.Written.{Writes};

use card::Task;
use properties::numbered;
use spaces::Spaces;
use spaces::enabling::enabled;
use text::lists::write_types;

// The members of the spaces, each mask at the lowest property of its space.
fn by_label(spaces: Spaces) -> [u64; 60]
    requires { (spaces.count ≤ 60) × ((k : ℕ) → get_or spaces.lowest k 0 < 60) }
    ensures { result ≡ label_masks spaces.lowest spaces.members spaces.count }
{
    let mut masks = [0u64; 60];
    for k in 0..spaces.count {
        masks[usize::from(spaces.lowest[k])] = spaces.members[k];
    }
    masks
}

// The `R` lines of schema n, parameter by parameter: the objects in the space of each property in the parameter's row of preconditions. The rows of
// the schema's `parameters` begin at row `first`.
fn write_schema_types(
    out: &mut [u8],
    n: usize,
    parameters: usize,
    preconditions: &[u8],
    first: usize,
    masks: &[u64],
    groups: &[u8],
    size: usize,
    objects: usize,
) -> usize
    requires members_given { MembersGiven size groups.now masks.now objects }
    requires parameters_in_bounds { 60 * (first + parameters) ≤ length preconditions.now }
    requires room { Room (text (typed_lines size groups.now masks.now objects preconditions.now n first parameters)) out.old }
    ensures { Writes
        (text (typed_lines size groups.now masks.now objects preconditions.now n first parameters))
        out.old
        out.new
        result }
{
    let mut at = 0;
    for k in 0..parameters {
        let those = enabled(masks, groups, preconditions, first + k, size, objects);
        at += write_types(&mut out[at..], n, k, those);
    }
    at
}

// The `R` lines, schema by schema.
pub fn write_type_lines(out: &mut [u8], task: Task, spaces: Spaces, preconditions: &[u8]) -> usize
    requires represented { Represented task (task_of task) }
    requires spaces_of { SpacesOf (task_of task) spaces }
    requires precondition_rows { PreconditionRows (task_of task) preconditions.now }
    requires room { Room (text (type_lines (task_of task) (model.spaces (task_of task)) 0 (task_of task).schemas)) out.old }
    ensures { Writes
        (text (type_lines (task_of task) (model.spaces (task_of task)) 0 (task_of task).schemas))
        out.old
        out.new
        result }
{
    let schemas = task.schemas;
    let numbers = numbered(task.predicates);
    let size = numbers.count;
    let masks = by_label(spaces);
    let groups = spaces.groups;
    let mut at = 0;
    let mut first = 0;
    for (i, schema) in schemas.schemas[..schemas.count].iter().enumerate() {
        at += write_schema_types(
            &mut out[at..],
            i,
            schema.parameters,
            preconditions,
            first,
            &masks,
            &groups,
            size,
            task.objects,
        );
        first += schema.parameters;
    }
    at
}
