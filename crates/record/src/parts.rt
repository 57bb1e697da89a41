// Parts of what is lent, cut at its end where they would go past it. A number beside a slice is where to cut it.
ghost use Rattle.std.specs.Prelude.{◌≡◌, ◌≤◌, length, take, drop, slice_index};

/// The byte at a place, and 0 past the end.
pub fn byte(s: &[u8], at: usize) -> u8
    ensures { result ≡ slice_index s.now at }
{
    s.get(at).copied().unwrap_or(0)
}

/// The bytes from a place on, and none past the end.
pub fn from(s: &[u8], at: usize) -> &[u8]
    ensures { result.now ≡ drop at s.now }
{
    &s[at.min(s.len())..]
}

/// The first n, and all where there are fewer.
pub fn upto<T>(s: &[T], n: usize) -> &[T]
    ensures { result.now ≡ take n s.now }
{
    &s[..n.min(s.len())]
}

/// The same of what is lent for change.
pub fn first<T>(s: &mut [T], n: usize) -> &mut [T]
    ensures { result.now ≡ take n s.old }
{
    let end = n.min(s.len());
    &mut s[..end]
}

/// What stands before a place and from it on; all and nothing past the end.
pub fn cut(s: &[u8], at: usize) -> (&[u8], &[u8])
    ensures front { result.0.now ≡ take at s.now }
    ensures rest { result.1.now ≡ drop at s.now }
{
    s.split_at(at.min(s.len()))
}
