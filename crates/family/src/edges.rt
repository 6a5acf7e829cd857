// The two edges of a region along an axis.
#[derive(Clone, Copy, PartialEq, Eq, Debug)]
pub enum Edge {
    Near,
    Far,
}
