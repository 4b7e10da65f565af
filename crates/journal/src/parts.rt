ghost use Rattle.std.specs.Prelude.{◌≡◌};
ghost use Rattle.journal.specs.Packing.{what_of, read_by, written_by};

use flex_base::{Access, AmoOp, Class, EndPart, Engine, Reply, What};

// What kind of event it is, with what takes a byte. A number is a width.
#[derive(Clone, Copy)]
pub(crate) enum Kind {
    Fetch,
    Pte,
    Read(u8),
    Write(u8),
    Lr(u8),
    Sc(u8),
    Amo(AmoOp, u8),
    DevRead(u8),
    DevWrite(u8),
    Pulse(bool),
    Wait,
    Retire,
    Time,
    End(Class),
    Handover(Engine),
}

// What happened, taken apart: its kind, and the numbers that it tells, of which the last is small in
// almost every event.
#[derive(Clone, Copy)]
pub(crate) struct Parts {
    pub(crate) kind: Kind,
    pub(crate) stop: bool,
    pub(crate) first: u64,
    pub(crate) second: u64,
    pub(crate) third: u64,
    pub(crate) last: u64,
}

impl Parts {
    #[inline]
    pub(crate) fn of(what: &What) -> Parts
        ensures { what_of result ≡ what.now }
    {
        match *what {
            What::Acc(access, reply) => Parts::of_access(access, reply),
            What::End(end) => Parts::of_end(end),
            What::Handover(to) => Parts {
                kind: Kind::Handover(to),
                stop: false,
                first: 0,
                second: 0,
                third: 0,
                last: 0,
            },
        }
    }

    #[inline]
    pub(crate) fn of_end(end: EndPart) -> Parts
        ensures { what_of result ≡ What.End end }
    {
        Parts {
            kind: Kind::End(end.class),
            stop: false,
            first: end.pc,
            second: end.next,
            third: end.second,
            last: end.first,
        }
    }

    #[inline]
    pub(crate) fn of_access(access: Access, reply: Reply) -> Parts
        ensures { what_of result ≡ What.Acc access reply }
    {
        match access {
            Access::Fetch { address } => Parts::read(Kind::Fetch, address, reply),
            Access::Pte { address } => Parts::read(Kind::Pte, address, reply),
            Access::Read { address, width } => Parts::read(Kind::Read(width), address, reply),
            Access::Write {
                address,
                width,
                value,
            } => Parts::written(Kind::Write(width), address, value, reply),
            Access::Lr { address, width } => Parts::read(Kind::Lr(width), address, reply),
            Access::Sc {
                address,
                width,
                value,
            } => Parts::written(Kind::Sc(width), address, value, reply),
            Access::Amo {
                op,
                address,
                width,
                value,
            } => Parts::written(Kind::Amo(op, width), address, value, reply),
            Access::DevRead { address, width } => {
                Parts::read(Kind::DevRead(width), address, reply)
            }
            Access::DevWrite {
                address,
                width,
                value,
            } => Parts::written(Kind::DevWrite(width), address, value, reply),
            Access::Pulse { tick } => Parts::read(Kind::Pulse(tick), 0, reply),
            Access::Wait { mie } => Parts::read(Kind::Wait, mie, reply),
            Access::Retire => Parts::read(Kind::Retire, 0, reply),
            Access::Time => Parts::read(Kind::Time, 0, reply),
        }
    }

    // An access that hands in one number at most.
    #[inline]
    fn read(kind: Kind, handed: u64, reply: Reply) -> Parts
        ensures { result ≡ record {
          kind = kind;
          stop = reply.stop;
          first = handed;
          second = reply.value;
          third = reply.lines;
          last = 0;
        } }
    {
        Parts {
            kind,
            stop: reply.stop,
            first: handed,
            second: reply.value,
            third: reply.lines,
            last: 0,
        }
    }

    // An access that hands in an address and a value. The lines of its reply are 0 in every run.
    #[inline]
    fn written(kind: Kind, address: u64, value: u64, reply: Reply) -> Parts
        ensures { result ≡ record {
          kind = kind;
          stop = reply.stop;
          first = address;
          second = value;
          third = reply.value;
          last = reply.lines;
        } }
    {
        Parts {
            kind,
            stop: reply.stop,
            first: address,
            second: value,
            third: reply.value,
            last: reply.lines,
        }
    }

    #[inline]
    pub(crate) fn what(&self) -> What
        ensures { result ≡ what_of self.now }
    {
        let address = self.first;
        let value = self.second;
        match self.kind {
            Kind::Fetch => self.read_by(Access::Fetch { address }),
            Kind::Pte => self.read_by(Access::Pte { address }),
            Kind::Read(width) => self.read_by(Access::Read { address, width }),
            Kind::Write(width) => self.written_by(Access::Write {
                address,
                width,
                value,
            }),
            Kind::Lr(width) => self.read_by(Access::Lr { address, width }),
            Kind::Sc(width) => self.written_by(Access::Sc {
                address,
                width,
                value,
            }),
            Kind::Amo(op, width) => self.written_by(Access::Amo {
                op,
                address,
                width,
                value,
            }),
            Kind::DevRead(width) => self.read_by(Access::DevRead { address, width }),
            Kind::DevWrite(width) => self.written_by(Access::DevWrite {
                address,
                width,
                value,
            }),
            Kind::Pulse(tick) => self.read_by(Access::Pulse { tick }),
            Kind::Wait => self.read_by(Access::Wait { mie: address }),
            Kind::Retire => self.read_by(Access::Retire),
            Kind::Time => self.read_by(Access::Time),
            Kind::End(class) => What::End(EndPart {
                class,
                pc: self.first,
                next: self.second,
                first: self.last,
                second: self.third,
            }),
            Kind::Handover(to) => What::Handover(to),
        }
    }

    #[inline]
    fn read_by(&self, access: Access) -> What
        ensures { result ≡ read_by access self.now }
    {
        What::Acc(
            access,
            Reply {
                value: self.second,
                lines: self.third,
                stop: self.stop,
            },
        )
    }

    #[inline]
    fn written_by(&self, access: Access) -> What
        ensures { result ≡ written_by access self.now }
    {
        What::Acc(
            access,
            Reply {
                value: self.third,
                lines: self.last,
                stop: self.stop,
            },
        )
    }
}
