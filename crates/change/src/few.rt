// Up to N values with their count, in place: the needs of a change, its kills, its adds.

mod methods;

#[derive(Clone, Copy)]
pub struct Few<T, const N: usize> {
    items: [T; N],
    count: usize,
}
