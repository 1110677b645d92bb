//! A callmessage: who called, by which call, and the parameters.
ghost use Rattle.std.specs.Prelude.{◌≡◌, ◌<◌, Some, None, length, get_or, option_map, slice_set};

use herm_base::ProcNo;

/// A callmessage: the caller's number, the number of the caller's call, and the parameters in declared order, each
/// with a value or empty.
#[derive(Drop)]
pub struct CallMsg<V> {
    pub(crate) caller: ProcNo,
    pub(crate) call: u64,
    pub(crate) params: Vec<Option<V>>,
}

impl<V> CallMsg<V> {
    /// The callmessage of this call, with these parameters.
    pub fn new(caller: ProcNo, call: u64, params: Vec<Option<V>>) -> CallMsg<V>
        ensures caller { result.caller ≡ caller }
        ensures call { result.call ≡ call }
        ensures params { result.params ≡ params }
    {
        CallMsg {
            caller,
            call,
            params,
        }
    }

    pub fn caller(&self) -> ProcNo
        ensures caller { result ≡ self.now.caller }
    {
        self.caller
    }

    /// The number of the caller's call, from 0 on.
    pub fn call(&self) -> u64
        ensures call { result ≡ self.now.call }
    {
        self.call
    }

    /// All parameters, in declared order.
    pub fn params(&self) -> &[Option<V>]
        ensures params { result.now ≡ self.now.params.items }
    {
        self.params.as_slice()
    }

    /// The value of a parameter, if there is one.
    pub fn param(&self, n: usize) -> Option<&V>
        requires place { n < length self.now.params.items }
        ensures value { option_map (λ v. v.now) result ≡ get_or self.now.params.items n None }
    {
        self.params[n].as_ref()
    }

    /// Takes the value of a parameter out, if there is one. It is empty then.
    pub fn take_param(&mut self, n: usize) -> Option<V>
        requires place { n < length self.old.params.items }
        ensures value { result ≡ get_or self.old.params.items n None }
        ensures params { self.new.params.items ≡ slice_set self.old.params.items n None }
        ensures caller { self.new.caller ≡ self.old.caller }
        ensures call { self.new.call ≡ self.old.call }
    {
        self.params[n].take()
    }

    /// Gives a parameter this value. The answer is the value that it had, if there was one.
    pub fn set_param(&mut self, n: usize, v: V) -> Option<V>
        requires place { n < length self.old.params.items }
        ensures value { result ≡ get_or self.old.params.items n None }
        ensures params { self.new.params.items ≡ slice_set self.old.params.items n (Some v) }
        ensures caller { self.new.caller ≡ self.old.caller }
        ensures call { self.new.call ≡ self.old.call }
    {
        self.params[n].replace(v)
    }

    /// The parameters, in declared order.
    pub fn into_params(self) -> Vec<Option<V>>
        ensures params { result ≡ self.params }
    {
        self.params
    }
}
