// Slices compared item by item.
ghost use Rattle.std.specs.Prelude.{◌≡◌, length};
ghost use Rattle.std.specs.Cmp.Lexicographic.{pointwise};

// Are the items the same? What `==` says, item by item: the library's is a call for each pair of short slices, and words are short.
pub fn same_items<T: PartialEq>(left: &[T], right: &[T]) -> bool
    ensures { result ≡ pointwise T.eq left.now right.now }
{
    if left.len() != right.len() {
        return false;
    }
    for i in 0..left.len() {
        if left[i] != right[i] {
            return false;
        }
    }
    true
}
