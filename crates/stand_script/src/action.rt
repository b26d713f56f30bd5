use wording::plate::Plate;

// What a line of a stand's script asks for.
#[derive(Debug, Drop, PartialEq, Eq)]
pub enum Action {
    // To hang a machine on the stand.
    Hang(Plate),
    // To run a batch, with an amount for each component.
    Run { address: u8, amounts: Vec<u32> },
    // To show a burst to the machine.
    Show { bytes: Vec<u8> },
}
