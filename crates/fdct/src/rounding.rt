// A double as a coefficient: clamped, then to the nearest, halves away from zero. Each step is one that compilers do on several doubles
// at once, so no double is cast before it is a whole number.
ghost use Rattle.std.specs.Prelude.{◌≡◌, false, T, pos};
ghost use Rattle.std.specs.Float.Ieee as Ieee;
ghost use Rattle.std.specs.Float.{fin};
ghost use Rattle.fdct.specs.Double.{zero_double};
ghost use Rattle.fdct.specs.Rounding.{rounded_size, coefficient_of};
ghost use Rattle.fdct.specs.Told.{sized, known, not_above, not_below, rested, carried};

// A NaN counts as 0.
fn known(x: f64) -> f64
    ensures { result ≡ known x }
{
    if x == x { x } else { 0.0 }
}

fn at_most(x: f64) -> f64
    ensures { result ≡ not_above x }
{
    if x < 2047.0 { x } else { 2047.0 }
}

fn at_least(x: f64) -> f64
    ensures { result ≡ not_below x }
{
    if -2048.0 < x { x } else { -2048.0 }
}

// x without its sign.
fn size(x: f64) -> f64
    ensures { result ≡ sized x }
{
    if x < 0.0 { -x } else { x }
}

// A whole number within a half of x: from 2^52 on, doubles have no fraction.
fn rested(x: f64) -> f64
    ensures { result ≡ rested x }
{
    x + 4503599627370496.0 - 4503599627370496.0
}

// 1 where x is a half above t, which has then gone to its even neighbour, and 0 elsewhere.
fn carried(t: f64, x: f64) -> f64
    ensures { result ≡ carried t x }
{
    if t + 0.5 <= x { 1.0 } else { 0.0 }
}

// To the nearest, a half upward. Adding a half to x itself would round; to a whole number it does not.
fn nearest_up(x: f64) -> i32
    requires at_least_zero { T (Ieee.le zero_double x) }
    requires below_4096 { T (Ieee.lt x (fin false 1 (pos 12))) }
    ensures { result ≡ pos (rounded_size x) }
{
    let t = rested(x);
    (t + carried(t, x)) as i32
}

pub fn coefficient_of(x: f64) -> i32
    ensures { result ≡ coefficient_of x }
{
    let z = at_least(at_most(known(x)));
    let n = nearest_up(size(z));
    if z < 0.0 { -n } else { n }
}
