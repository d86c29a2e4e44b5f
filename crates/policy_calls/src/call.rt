/// A call: the name of the policy that calls, and that of the one that is called.
#[derive(Clone, Copy, Debug)]
pub struct Call<'a> {
    pub caller: &'a [u8],
    pub callee: &'a [u8],
}
