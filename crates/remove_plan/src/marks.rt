// Marks at places.
ghost use Rattle.std.specs.Prelude.{◌≡◌, ◌<◌, ◌||◌, ℕ, All, None, Some, length, nat_eq};
ghost use Rattle.std.specs.Prelude.{slice_index_or, if◌then◌else◌};
ghost use Rattle.std.specs.List.{list_any};
ghost use Rattle.std.specs.Option.{option_or};
ghost use Rattle.remove_plan.specs.Marks.{is_marked};

/// Marks these places.
pub(crate) fn mark(marks: &mut [bool], places: &[usize])
    requires { All (λ (j : ℕ). j < length marks.old) places.now }
    ensures counted { length marks.new ≡ length marks.old }
    ensures at { (j : ℕ)
        → is_marked marks.new j ≡ (is_marked marks.old j || list_any (nat_eq j) places.now) }
{
    for place in places {
        marks[*place] = true;
    }
}

/// Notes a user at each of these places without one.
pub(crate) fn note(users: &mut [Option<usize>], places: &[usize], user: usize)
    requires { All (λ (j : ℕ). j < length users.old) places.now }
    ensures counted { length users.new ≡ length users.old }
    ensures at { (j : ℕ)
        → slice_index_or users.new j None
        ≡ option_or (slice_index_or users.old j None)
        (if list_any (nat_eq j) places.now then Some user else None) }
{
    for place in places {
        users[*place] = users[*place].or(Some(user));
    }
}
