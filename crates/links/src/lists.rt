// Lists that are filled anew in the memory that they have. Each is filled by pushes within that memory:
// `resize` and `extend_from_slice` say only that it gets no smaller.

ghost use Rattle.std.specs.Prelude.{◌≡◌, ◌≤◌, length, replicate, vec_capacity};

// Makes the list `n` copies of a value.
pub(crate) fn fill<T: Copy + Drop>(list: &mut Vec<T>, n: usize, value: T)
    requires { n ≤ vec_capacity list.old }
    ensures items { list.new.items ≡ replicate n value }
    ensures room { vec_capacity list.new ≡ vec_capacity list.old }
{
    list.clear();
    for _ in 0..n {
        list.push_reserved(value);
    }
}

// Makes the list a copy of another.
pub(crate) fn refill<T: Copy + Drop>(list: &mut Vec<T>, from: &[T])
    requires { length from.now ≤ vec_capacity list.old }
    ensures items { list.new.items ≡ from.now }
    ensures room { vec_capacity list.new ≡ vec_capacity list.old }
{
    list.clear();
    for x in from {
        list.push_reserved(*x);
    }
}
