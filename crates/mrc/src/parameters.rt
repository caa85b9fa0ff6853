// The unit cell's edges in ångström and angles in degrees: which numbers can be one, and which a group has.
ghost use Rattle.std.specs.Prelude.{◌≡◌};
ghost use Rattle.mrc.specs.Parameters.{is_edge, is_angle, is_gamma, are_edges, are_angles, of_group};

// Three edges, and three angles or the one that is free, the others being 90. The names are those of the crystal
// systems: group 0 is triclinic, groups 1 to 3 are monoclinic with c unique. Group 4 is orthorhombic, and its gamma is
// 90 too.
#[derive(Clone, Copy)]
pub enum CellParameters {
    Triclinic {
        a: f32,
        b: f32,
        c: f32,
        alpha: f32,
        beta: f32,
        gamma: f32,
    },
    Monoclinic {
        a: f32,
        b: f32,
        c: f32,
        gamma: f32,
    },
}

// Finite and above 0. No comparison with a NaN holds; the bits are those of the infinity.
pub fn is_edge(x: f32) -> bool
    ensures { result ≡ is_edge x }
{
    if 0.0 < x {
        x < f32::from_bits(2139095040)
    } else {
        false
    }
}

// Strictly between 0 and 180.
pub fn is_angle(x: f32) -> bool
    ensures { result ≡ is_angle x }
{
    if 0.0 < x { x < 180.0 } else { false }
}

// The free angle of a group.
fn is_gamma(group: u32, x: f32) -> bool
    ensures { result ≡ is_gamma group x }
{
    if group == 4 { x == 90.0 } else { is_angle(x) }
}

#[tactic(auto, unfolding(crate::specs::Parameters::are_edges))]
fn are_edges(a: f32, b: f32, c: f32) -> bool
    ensures { result ≡ are_edges a b c }
{
    is_edge(a) & (is_edge(b) & is_edge(c))
}

#[tactic(auto, unfolding(crate::specs::Parameters::are_angles))]
fn are_angles(alpha: f32, beta: f32, gamma: f32) -> bool
    ensures { result ≡ are_angles alpha beta gamma }
{
    is_angle(alpha) & (is_angle(beta) & is_angle(gamma))
}

// The parameters are of the group's kind, and each is an edge or an angle.
pub fn of_group(group: u32, parameters: CellParameters) -> bool
    ensures { result ≡ of_group group parameters }
{
    match parameters {
        CellParameters::Triclinic {
            a,
            b,
            c,
            alpha,
            beta,
            gamma,
        } => (group == 0) & (are_edges(a, b, c) & are_angles(alpha, beta, gamma)),
        CellParameters::Monoclinic { a, b, c, gamma } => (group != 0)
            & (are_edges(a, b, c) & is_gamma(group, gamma)),
    }
}
