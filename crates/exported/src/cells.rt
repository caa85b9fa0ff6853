// The unit cell of a viewer's file, as a program in C hands it in.
ghost use Rattle.std.specs.Prelude.{◌≡◌};
ghost use Rattle.exported.specs.Cells.{parameters_of, AngleCounts};

use mrc::parameters::CellParameters;

// Three edges in ångström, and how many angles in degrees are given: 3, or 1, which is gamma, where alpha and beta are
// not read. Another count is refused.
#[repr(C)]
#[derive(Clone, Copy)]
pub struct CellCoded {
    pub angles: u32,
    pub a: f32,
    pub b: f32,
    pub c: f32,
    pub alpha: f32,
    pub beta: f32,
    pub gamma: f32,
}

impl From<CellCoded> for CellParameters {
    ghost from_gives = { λ c p. p ≡ parameters_of c };

    fn from(cell: CellCoded) -> CellParameters {
        match cell.angles {
            3 => CellParameters::Triclinic {
                a: cell.a,
                b: cell.b,
                c: cell.c,
                alpha: cell.alpha,
                beta: cell.beta,
                gamma: cell.gamma,
            },
            1 => CellParameters::Monoclinic {
                a: cell.a,
                b: cell.b,
                c: cell.c,
                gamma: cell.gamma,
            },
            _ => CellParameters::Monoclinic {
                a: 0.0,
                b: 0.0,
                c: 0.0,
                gamma: 0.0,
            },
        }
    }
}

// What each count of angles is taken for. The function does nothing; its promise is the statement.
pub fn angle_counts()
    ensures { AngleCounts }
{}
