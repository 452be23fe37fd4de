// How many trials there were, how many of them had what was sought, and in how many all agreed.
#[derive(Clone, Copy, Default)]
pub struct Tally {
    pub tried: usize,
    pub found: usize,
    pub agreed: usize,
}

impl Tally {
    // Counts a trial.
    pub(crate) fn add(&mut self, found: bool, agreed: bool) {
        self.tried = self.tried.saturating_add(1);
        self.found = self.found.saturating_add(usize::from(found));
        self.agreed = self.agreed.saturating_add(usize::from(agreed));
    }

    // Whether all agreed in each trial.
    pub(crate) fn all(&self) -> bool {
        self.agreed == self.tried
    }
}
