// The market: five numbers, as they are passed and as they are stored.
#[derive(Clone, Copy, PartialEq, Debug)]
pub struct Market {
    pub ceiling: u32,
    pub reference: u32,
    // hundredths of a percent
    pub factor: u32,
    pub size: u32,
    // ten-thousandths
    pub rate: u32,
}
