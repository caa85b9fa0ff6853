// How many lines a job has along each axis, and the lines along h and k, which are of one kind in every group. All that a line's turn
// has to know of the job is computed here and in `numbering`, so that the turns themselves carry few numbers.
ghost use Rattle.std.specs.Prelude.{◌<◌};
ghost use Rattle.volume_transform.specs.Axes.{turn_of, numbers_of, along_h, along_k, turned_h, turned_k};
ghost use Rattle.volume_transform.specs.Plans.{plan_group, plan_halves, SizesIn, Planned, Counted, Gathered, Row};
ghost use Rattle.volume_transform.specs.Groups.{Neighbours, RowsAfter};

use crate::plan::{Counts, Line, Plan};

// How many lines there are along each axis.
pub fn line_counts(plan: Plan) -> Counts
    requires { SizesIn plan }
    ensures { Counted plan result }
{
    let width = (plan.cell.n2 / 2 + 1) as usize;
    let rows = plan.cell.n1 as usize;
    let layers = cell::places::layer_count(plan.cell) as usize;
    Counts {
        l: rows * width,
        h: layers * width,
        k: layers * rows,
    }
}

// Line y = w (B + 1) + k along h, a plain one.
pub fn along_h(plan: Plan, y: usize) -> Line
    requires { Planned plan × (y < (along_h (plan_group plan) (plan_halves plan)).count) }
    ensures gathered { Gathered plan
        (turn_of (along_h (plan_group plan) (plan_halves plan))
        (turned_h (plan_group plan) (plan_halves plan) plan.m plan.direction) y)
        (numbers_of (along_h (plan_group plan) (plan_halves plan)) y) result }
    ensures neighbours { Neighbours plan (turn_of (along_h (plan_group plan) (plan_halves plan))
        (turned_h (plan_group plan) (plan_halves plan) plan.m plan.direction))
        (numbers_of (along_h (plan_group plan) (plan_halves plan))) y result }
{
    let width = (plan.cell.n2 / 2 + 1) as usize;
    let rows = plan.cell.n1 as usize;
    Line {
        m: plan.m,
        direction: plan.direction,
        kind: 0,
        rotated: false, // a line that is stored times i loses it along l
        factors: plan.f1,
        half: (plan.cell.n1 / 2) as usize,
        start: y / width * (rows * width) + y % width,
        stride: width,
        count: rows,
    }
}

// Row y = w N1 + h along k.
pub fn row_at(plan: Plan, y: usize) -> Line
    requires { Planned plan × (y < (along_k (plan_group plan) (plan_halves plan)).count) }
    ensures row { Row plan
        (turn_of (along_k (plan_group plan) (plan_halves plan))
        (turned_k (plan_group plan) (plan_halves plan) plan.m plan.direction) y)
        (numbers_of (along_k (plan_group plan) (plan_halves plan)) y) result }
    ensures rows_after { RowsAfter plan (turn_of (along_k (plan_group plan) (plan_halves plan))
        (turned_k (plan_group plan) (plan_halves plan) plan.m plan.direction))
        (numbers_of (along_k (plan_group plan) (plan_halves plan))) y
        (along_k (plan_group plan) (plan_halves plan)).count result }
{
    let half = (plan.cell.n2 / 2) as usize;
    let width = half + 1;
    Line {
        m: plan.m,
        direction: plan.direction,
        kind: 1,
        rotated: false,
        factors: plan.f2,
        half,
        start: y * width,
        stride: 1,
        count: width,
    }
}
