// The open PES, as the code keeps it.

// The PES that is open: the packet that began it, and its header.
#[derive(Clone, Copy)]
pub struct PesFound {
    pub first: usize,
    pub header: pes::Header,
}
