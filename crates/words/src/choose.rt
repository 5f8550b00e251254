// One of two values by a truth value, without a branch.
ghost use Rattle.std.specs.Prelude.{◌≡◌, cond};

pub fn choose<T: Copy>(b: bool, x: T, y: T) -> T
    ensures { result ≡ cond b x y }
{
    if b { x } else { y }
}
