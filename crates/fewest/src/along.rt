// What is written along an edge, on whose other sides all addresses go to one next hop, for one who comes to its upper end with some next hop.
#[derive(Clone, Copy, PartialEq, Eq, Debug)]
pub enum Along {
    // Nothing, and one goes on with the same next hop.
    Nothing,
    // A line with the next hop of the other sides at the upper end, and one goes on with that.
    Top,
    // A line with it on each other side, and one goes on with the same next hop.
    Sides,
}
