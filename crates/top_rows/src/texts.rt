//! The texts of the rows.

/// The built-in table of four elements as a user writes it.
pub(crate) const FOUR: &str =
    "# four elements\nversion = 1\nelements = 4\nmanager = 1\n\n[[group]]\nvid = 1\nmembers = [\"0.0\", \"1.0\", \"2.0\", \"3.0\"]\nts = 3\ntr = 2\n\n[[group]]\nvid = 2\nmembers = [\"0.1\", \"1.1\", \"2.1\"]\nts = 3\ntr = 2\n\n[[group]]\nvid = 3\nmembers = [\"1.2\", \"2.2\", \"3.2\"]\nts = 3\ntr = 2\n\n[[group]]\nvid = 4\nmembers = [\"3.1\"]\nts = 3\ntr = 2\n\n[[group]]\nvid = 5\nmembers = [\"0.3\"]\nts = 3\ntr = 2\nmasked = []\n";

/// The same, where group 5 has one output slot and group 3 two input slots: what stands before further lines of group 3, and
/// what stands behind them.
pub(crate) const SMALL_BUFFERS: [&str; 2] = [
    "version = 2\nelements = 4\nmanager = 1\n\n[[group]]\nvid = 1\nmembers = [\"0.0\", \"1.0\", \"2.0\", \"3.0\"]\nts = 3\ntr = 2\n\n[[group]]\nvid = 2\nmembers = [\"0.1\", \"1.1\", \"2.1\"]\nts = 3\ntr = 2\n\n[[group]]\nvid = 3\nmembers = [\"1.2\", \"2.2\", \"3.2\"]\nts = 3\ntr = 2\nins = 2\n",
    "\n[[group]]\nvid = 4\nmembers = [\"3.1\"]\nts = 3\ntr = 2\n\n[[group]]\nvid = 5\nmembers = [\"0.3\"]\nts = 3\ntr = 2\nouts = 1\n",
];

/// Voted posts, and its whole report.
pub(crate) const VOTED: &str =
    "cycles 1\nat 0 post 0.1 3 1 0 41\nat 0 post 1.1 3 1 0 41\nat 0 post 2.1 3 1 0 41\n";

pub(crate) const VOTED_REPORT: &str =
    "cycle 0\npattern 0 2 3:3:1:0 2 2 2 2 2 2\npattern 1 2 3:3:1:0 2 2 2 2 2 2\npattern 2 2 3:3:1:0 2 2 2 2 2 2\npattern 3 2 2 2 2 2 2 2 2\nserve 2 to 3 class 1 kind voted waited 0 admitted 0 1 2\nresult 0 41\nresult 1 41\nresult 2 41\nresult 3 41\ndeliver 1.2 stored\ndeliver 2.2 stored\ndeliver 3.2 stored\nend cycles 1 served 1 discarded 0 idle 0 stored 3 overrun 0 syndromes 0\n";

/// The report of one cycle without acts, and the same where no frame came.
pub(crate) const IDLE_REPORT: &str =
    "cycle 0\npattern 0 2 2 2 2 2 2 2 2\npattern 1 2 2 2 2 2 2 2 2\npattern 2 2 2 2 2 2 2 2 2\npattern 3 2 2 2 2 2 2 2 2\nidle\nend cycles 1 served 0 discarded 0 idle 1 stored 0 overrun 0 syndromes 0\n";

pub(crate) const EMPTY_REPORT: &str =
    "cycle 0\npattern 0 0 0 0 0 0 0 0 0\npattern 1 0 0 0 0 0 0 0 0\npattern 2 0 0 0 0 0 0 0 0\npattern 3 0 0 0 0 0 0 0 0\nidle\nend cycles 1 served 0 discarded 0 idle 1 stored 0 overrun 0 syndromes 0\n";
