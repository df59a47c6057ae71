// The judge's test of protected bytes outside a range. Each type of tag adds the test of what it protects inside the range.

ghost use Rattle.std.specs.Prelude.{◌≡◌, ◌&&◌, ◌≤◌, length, take, drop};
ghost use Rattle.tag.specs.Bytes.{same};

use crate::Address;

// Whether two slices of one length have the same bytes. The judge asks this after each command, most often of few bytes. The loop has no
// early exit, so the compiler puts it into its callers and compares many bytes at once; `a == b` is a call, which took the judge of a
// full Type 3 tag 1.2 times as long.
fn same(a: &[u8], b: &[u8]) -> bool
    requires { length a.now ≡ length b.now }
    ensures { result ≡ same a.now b.now }
{
    let mut differ = false;
    for k in 0..a.len() {
        differ |= a[k] != b[k];
    }
    !differ
}

// Does the tag `work` have the bytes of `image` outside the range from `first` up to `stop`?
// They are two slices, and no struct: one is written after each command, and the other is the tag handed in.
pub fn is_kept_outside(image: &[u8], work: &[u8], first: Address, stop: Address) -> bool
    requires { (first.0 ≤ length image.now) × (stop.0 ≤ length image.now) × (length work.now ≡ length image.now) }
    ensures { result ≡ same (take first.0 work.now) (take first.0 image.now) && same (drop stop.0 work.now) (drop stop.0 image.now) }
{
    same(&work[..first.0], &image[..first.0]) && same(&work[stop.0..], &image[stop.0..])
}
