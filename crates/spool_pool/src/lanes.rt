use crate::letter::Letter;
use crate::shelved::Shelved;
use fw_disk::Disk;
use shared_queue::QueuePass;
use spool_rack::Free;

/// The passes of the pool's three queues.
#[derive(Drop)]
pub(crate) struct Lanes<D: Disk> {
    pub(crate) free: QueuePass<Free<D>>,
    pub(crate) full: QueuePass<Letter<D>>,
    pub(crate) shelf: QueuePass<Shelved<D>>,
}
