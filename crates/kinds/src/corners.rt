// The prices at which a payment may bend: at most two, which the type says and a list of prices would not.
#[derive(Clone, Copy, PartialEq, Eq, Debug)]
pub enum Corners {
    Zero,
    One(u32),
    Two(u32, u32),
}
