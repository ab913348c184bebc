ghost use Rattle.std.specs.Prelude.{◌+◌, ◌≤◌, length};
ghost use Rattle.h2_num.specs.Places.{places, SameOutside, ZeroIn};

/// Puts zeros in n places, from one on.
pub fn clear_range(buf: &mut [u8], from: usize, n: usize)
    requires { from + n ≤ length buf.old }
    ensures zeros { ZeroIn from (from + n) (places buf.new) }
    ensures others { SameOutside from n (places buf.old) (places buf.new) }
{
    for k in from..from + n {
        buf[k] = 0;
    }
}
