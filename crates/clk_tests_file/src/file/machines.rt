//! Changes of the file that is read, and the machines that they give: the base, the time of ticket 1, the tick, the
//! width, whether it starts stable, the reference, the bring-up and the watchdog; then the timeouts from CPU 1 on, the
//! sources by kind, rating, margin, nominal rate, rate, width and number of jumps, and the words of each thread.

pub(crate) const MACHINES: &str = "
 => 0 10 1000000 64 false ReferencePart { khz: 1000000, bits: 64, rating: 250, margin: 0 } None None, thread
nominal_khz = 2400000;source = [{ rating = 7, margin = 3, nominal_khz = 2000 }, { tsc = true, rating = 9, margin = 4 }] => 0 10 1000000 64 false ReferencePart { khz: 1000000, bits: 64, rating: 250, margin: 0 } None None, source false 7 3 2000 2000 64 0, source true 9 4 2400000 2400000 64 0, thread
step = 3;tick = 7;bits = 56;stable = true;reference = { khz = 14318, bits = 32, rating = 300, margin = 5 };watchdog = { checks = 2, pause = 3, skew = 4, retries = 1 };source = [{ rating = 7, margin = 3, nominal_khz = 2000, khz = 3000, bits = 32, jumps = [[0, 5]] }] => 0 3 7 56 true ReferencePart { khz: 14318, bits: 32, rating: 300, margin: 5 } None Some(WatchPart { checks: 2, pause: 3, skew: 4, retries: 1 }), source false 7 3 2000 3000 32 1, thread
version = 2;base = -9223372036854775808 => -9223372036854775808 10 1000000 64 false ReferencePart { khz: 1000000, bits: 64, rating: 250, margin: 0 } None None, thread
bringup = { adjust = true, timeout_us = 20, turns = 8 } => 0 10 1000000 64 false ReferencePart { khz: 1000000, bits: 64, rating: 250, margin: 0 } Some(BringUpPart { adjust: true, timeout_us: 20, first_us: 20, turns: 8 }) None, thread
version = 2;cpus = 2;cpu = [{}, {}];bringup = { adjust = false, timeout_us = 20, turns = 8 } => 0 10 1000000 64 false ReferencePart { khz: 1000000, bits: 64, rating: 250, margin: 0 } Some(BringUpPart { adjust: false, timeout_us: 20, first_us: 20, turns: 8 }) None, timeout 20, thread, thread
version = 2;cpus = 4;cpu = [{}, { socket = 0 }, { socket = 63 }, { socket = 63 }];bringup = { adjust = true, timeout_us = 0, first_us = 1000, turns = 0 } => 0 10 1000000 64 false ReferencePart { khz: 1000000, bits: 64, rating: 250, margin: 0 } Some(BringUpPart { adjust: true, timeout_us: 0, first_us: 1000, turns: 0 }) None, timeout 0, timeout 1000, timeout 0, thread, thread, thread, thread
cpus = 2;cpu = [{ repeat = 2, script = ['local', 'remote 1', 'pause 7'] }, { script = ['tick', 'idle', 'update'] }];reader = [{ cpu = 1, script = ['pause 999', 'remote 0'] }] => 0 10 1000000 64 false ReferencePart { khz: 1000000, bits: 64, rating: 250, margin: 0 } None None, thread Local Remote(1) Pause(7) Local Remote(1) Pause(7), thread Tick Idle Update, thread Pause(999) Remote(0)
";
