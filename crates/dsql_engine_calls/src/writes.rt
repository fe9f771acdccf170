//! Writes to one table. They can't fail: their memory was taken before, or they take none.
ghost use Rattle.std.specs.Prelude.{◌≡◌, ◌+◌, ◌<◌, ◌≤◌, ◌∷◌, ◌++◌, [], vec_len, vec_capacity};
ghost use Rattle.dsql_history.specs.pool.Pooled.{without};

/// Appends an element to a list that has room for it.
pub fn put<T: Drop>(v: &mut Vec<T>, x: T)
    requires { vec_len v.old < vec_capacity v.old }
    ensures items { v.new.items ≡ v.old.items ++ x ∷ [] }
    ensures len { vec_len v.new ≡ vec_len v.old + 1 }
    ensures capacity { vec_capacity v.new ≡ vec_capacity v.old }
{
    v.push_reserved(x);
}

/// Removes a number from a list.
pub fn take_out(v: &mut Vec<u32>, x: u32)
    ensures items { v.new.items ≡ without x v.old.items }
    ensures len { vec_len v.new ≤ vec_len v.old }
    ensures capacity { vec_capacity v.new ≡ vec_capacity v.old }
{
    v.retain(|y| *y != x);
}
