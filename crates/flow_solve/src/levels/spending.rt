//! The budget of a stage.
ghost use Rattle.std.specs.Prelude.{◌≡◌, ◌+◌, true, false};

/// Takes a cost off what may still be done. Answers whether there was so much; where there wasn't, nothing more may be
/// done.
pub(crate) fn spend(left: &mut u64, cost: u64) -> bool
    ensures some { result ≡ true → left.new + cost ≡ left.old }
    ensures none { result ≡ false → left.new ≡ 0 }
{
    if *left < cost {
        *left = 0;
        return false;
    }
    *left -= cost;
    true
}
