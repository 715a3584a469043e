// Which cycles a whole instruction has, and in what order.
#[derive(Clone, Copy)]
pub enum Track {
    Inside, // one byte, and an internal cycle
    Program, // immediate, or JMP a: bytes of the program
    Branch, // likewise, then an internal cycle or two where it is taken
    ReadDirect, // an internal cycle where D isn't on a page, then data
    StoreDirect,
    ReadAbsolute, // data after two bytes of address
    StoreAbsolute,
}
