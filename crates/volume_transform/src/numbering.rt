// The lines of a job, by their numbers: first those along l, then h, then k, each by rising place of its first pair. The kind of a line
// along l is that of its group at its h.
ghost use Rattle.std.specs.Prelude.{◌≡◌, true, ◌+◌, ◌<◌, ◌≤◌};
ghost use Rattle.cell.specs.Volume.{first_pair};
ghost use Rattle.lengths.specs.Lengths.{kind_of};
ghost use Rattle.volume_transform.specs.Axes.{line_count, line_of_turn, turn_of, numbers_of, along_l, along_h};
ghost use Rattle.volume_transform.specs.Axes.{turned_l};
ghost use Rattle.volume_transform.specs.Plans.{plan_group, plan_halves, Planned, Counted, line_turn, plan_numbers};
ghost use Rattle.volume_transform.specs.Plans.{Gathered, LineAt};
ghost use Rattle.volume_transform.specs.Groups.{Neighbours, RowsAfter, InBatch, SideBySide, GroupOfTurn};
ghost use Rattle.volume_transform.specs.Groups.{GroupAt};

use crate::plan::{Counts, Line, LineGroup, Plan};

// The line that turn n transforms.
pub fn line_in_turn(plan: Plan, counts: Counts, n: usize) -> Line
    requires { Planned plan × Counted plan counts × (n < line_count (plan_group plan) (plan_halves plan)) }
    ensures { LineAt plan (line_of_turn (plan_group plan) (plan_halves plan) plan.direction n) result }
{
    line_at(plan, counts, line_of_turn(plan, counts, n))
}

// The same with those after it that are turned together with it, `most` lines at the most.
pub fn group_of_turn(plan: Plan, counts: Counts, n: usize, most: usize) -> LineGroup
    requires { Planned plan
        × Counted plan counts
        × (n < line_count (plan_group plan) (plan_halves plan))
        × (0 < most) }
    ensures { GroupOfTurn plan n most result }
{
    let j = line_of_turn(plan, counts, n);
    let line = line_at(plan, counts, j);
    LineGroup {
        line,
        lanes: lanes_beside(plan, counts, j, line, most),
    }
}

// How many lines are turned together from line number j on, which is `line`.
fn lanes_beside(plan: Plan, counts: Counts, j: usize, line: Line, most: usize) -> usize
    requires { Planned plan
        × Counted plan counts
        × (j < line_count (plan_group plan) (plan_halves plan))
        × (0 < most) }
    ensures { (0 < result) × (result ≤ most) × (1 < result → InBatch line × SideBySide plan j result) }
{
    if most == 1 {
        return 1;
    }
    if !has_room(line) {
        return 1;
    }
    let left = lines_left(plan, counts, j);
    if most <= left { most } else { left }
}

// A batch has room for sixteen such lines.
fn has_room(line: Line) -> bool
    ensures { result ≡ true → InBatch line }
{
    if line.count == 0 {
        return false;
    }
    if line.kind == 2 {
        return false;
    }
    if line.kind == 3 {
        return line.half <= 359;
    }
    if line.rotated {
        return false;
    }
    if line.kind == 0 {
        return line.count <= 360;
    }
    line.half <= 359
}

// How many lines stand side by side from line number j on: along l and h those to the end of its row, along k all that are left.
fn lines_left(plan: Plan, counts: Counts, j: usize) -> usize
    requires { Planned plan × Counted plan counts × (j < line_count (plan_group plan) (plan_halves plan)) }
    ensures { (0 < result) × SideBySide plan j result }
{
    let lines = counts.l + counts.h;
    if lines <= j {
        return lines + counts.k - j;
    }
    let width = (plan.cell.n2 / 2 + 1) as usize;
    width - j % width
}

// As group_of_turn, of plain lines alone: any other line is by itself.
pub fn group_in_turn(plan: Plan, counts: Counts, n: usize, most: usize) -> LineGroup
    requires { Planned plan
        × Counted plan counts
        × (n < line_count (plan_group plan) (plan_halves plan))
        × (0 < most) }
    ensures { GroupAt plan n most result }
{
    let group = group_of_turn(plan, counts, n, most);
    if group.line.kind == 0 {
        group
    } else {
        LineGroup { lanes: 1, ..group }
    }
}

// Its number: analysis takes the axes in the other order.
fn line_of_turn(plan: Plan, counts: Counts, n: usize) -> usize
    requires { Planned plan × Counted plan counts × (n < line_count (plan_group plan) (plan_halves plan)) }
    ensures { (result ≡ line_of_turn (plan_group plan) (plan_halves plan) plan.direction n)
        × (result < line_count (plan_group plan) (plan_halves plan)) }
{
    if plan.direction == 0 {
        n
    } else if n < counts.k {
        counts.l + counts.h + n
    } else if n < counts.k + counts.h {
        counts.l + (n - counts.k)
    } else {
        n - (counts.k + counts.h)
    }
}

// Line number j.
fn line_at(plan: Plan, counts: Counts, j: usize) -> Line
    requires { Planned plan × Counted plan counts × (j < line_count (plan_group plan) (plan_halves plan)) }
    ensures line_at { LineAt plan j result }
    ensures neighbours { j
        < (along_l (plan_group plan) (plan_halves plan)).count + (along_h (plan_group plan) (plan_halves plan)).count
        → Neighbours plan (line_turn plan) (plan_numbers plan) j result }
    ensures rows_after { (along_l (plan_group plan) (plan_halves plan)).count + (along_h (plan_group plan) (plan_halves plan)).count
        ≤ j
        → RowsAfter plan (line_turn plan) (plan_numbers plan) j (line_count (plan_group plan) (plan_halves plan)) result }
{
    if j < counts.l {
        along_l(plan, j)
    } else if j < counts.l + counts.h {
        crate::axis_lines::along_h(plan, j - counts.l)
    } else {
        crate::axis_lines::row_at(plan, j - (counts.l + counts.h))
    }
}

// Line y = h (B + 1) + k along l, by its kind.
fn along_l(plan: Plan, y: usize) -> Line
    requires { Planned plan × (y < (along_l (plan_group plan) (plan_halves plan)).count) }
    ensures gathered { Gathered plan
        (turn_of (along_l (plan_group plan) (plan_halves plan))
        (turned_l (plan_group plan) (plan_halves plan) plan.m plan.direction) y)
        (numbers_of (along_l (plan_group plan) (plan_halves plan)) y) result }
    ensures neighbours { Neighbours plan (turn_of (along_l (plan_group plan) (plan_halves plan))
        (turned_l (plan_group plan) (plan_halves plan) plan.m plan.direction))
        (numbers_of (along_l (plan_group plan) (plan_halves plan))) y result }
{
    let width = (plan.cell.n2 / 2 + 1) as usize;
    let stride = (plan.cell.n1 as usize) * width;
    let kind = cell::places::line_kind(plan.cell.group, y / width);
    Line {
        m: plan.m,
        direction: plan.direction,
        kind,
        rotated: cell::places::is_rotated(plan.cell.group, y / width),
        factors: plan.f3,
        half: (plan.cell.n3 / 2) as usize,
        start: y + first_pair(kind) * stride,
        stride,
        count: lengths::pair_count(kind, plan.cell.n3),
    }
}

// The first of the W pairs that belongs to a line of the kind.
fn first_pair(kind: u32) -> usize
    requires { kind < 6 }
    ensures { (result ≡ first_pair (kind_of kind)) × (result ≤ 1) }
{
    if kind == 5 { 1 } else { 0 }
}
