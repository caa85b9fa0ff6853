// The tables of a direction: those of the root for direction 0, and for direction 1 those of its conjugate, with the imaginary parts
// and the half tangents negated.
ghost use Rattle.numbers.specs.Value.{IsModulus};
ghost use Rattle.roots.specs.Table.{ImaginaryTable};
ghost use Rattle.roots.specs.TableLaws.{TangentTable};
ghost use Rattle.line.specs.Tables.{Directed};

// The imaginary parts of the powers.
pub fn imaginary_parts(m: u32, direction: u32) -> [u32; 2880]
    requires { IsModulus m }
    ensures { Directed m (ImaginaryTable m) 2880 direction result }
{
    let mut im = roots::powers::imaginary_parts(m);
    if direction == 0 {
        return im;
    }
    roots::negate(m, &mut im);
    im
}

// The half tangents.
pub fn half_tangents(m: u32, direction: u32) -> [u32; 1440]
    requires { IsModulus m }
    ensures { Directed m (TangentTable m) 1440 direction result }
{
    let mut tan = roots::half_tangents::half_tangents(m);
    if direction == 0 {
        return tan;
    }
    roots::negate(m, &mut tan);
    tan
}
