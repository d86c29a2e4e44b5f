// The calls of the fakes that are to fail.
ghost use Rattle.std.specs.Prelude.{◌≡◌};
ghost use Rattle.policy_outside.specs.Counts.{next_fails};

/// Whether the call that comes after `calls` calls is among those that are to fail.
pub fn is_next_to_fail(failing: &[u64], calls: u64) -> bool
    ensures { result ≡ next_fails failing.now calls }
{
    failing.contains(&calls.saturating_add(1))
}
