// A position: a contract and its net quantity, bought above zero, sold below.
#[derive(Clone, Copy)]
pub struct Position<K> {
    pub contract: K,
    pub net: i32,
}
