// The four areas that a call is lent.

// The after words, the tail words, the marks and the words of events.
#[derive(Drop)]
pub(crate) struct Areas<'a> {
    pub(crate) after: &'a mut [u16],
    pub(crate) tail: &'a mut [u16],
    pub(crate) marks: &'a mut [u16],
    pub(crate) events: &'a mut [u16],
}
