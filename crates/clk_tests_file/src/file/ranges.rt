//! Changes of the file that is read, and the answers. A change that is only a key takes it out, and `;` stands between
//! changes. A refusal is written with its row, its entry and its item.

pub(crate) const TABLES: [&str; 12] = [
    NUMBERS, REFERENCE, CPUS, READERS, DELAYS, BRING_UP, WATCHDOG, SOURCES, TICKETS, ORDER,
    VERSIONS, REFUSALS,
];

const NUMBERS: &str = "
cpus = 0 => value 2 0 0
cpus = 17 => value 2 0 0
step = 0 => value 3 0 0
step = 1 => read
step = 16384 => read
step = 16385 => value 3 0 0
tick = 0 => value 4 0 0
tick = 1 => read
tick = 1073741824 => read
tick = 1073741825 => value 4 0 0
bits = 31 => value 5 0 0
bits = 32 => read
bits = 48 => value 5 0 0
bits = 56 => read
bits = 65 => value 5 0 0
nominal_khz = 999 => value 6 0 0
nominal_khz = 1000 => read
nominal_khz = 4000000 => read
nominal_khz = 4000001 => value 6 0 0
";

const REFERENCE: &str = "
reference = { khz = 999 } => value 9 0 0
reference = { khz = 4000001 } => value 9 0 0
reference = { khz = 1000, bits = 63 } => value 10 0 0
reference = { khz = 4000000, bits = 32 } => read
reference = { khz = 1000, rating = 0 } => value 11 0 0
reference = { khz = 1000, rating = 1001 } => value 11 0 0
reference = { khz = 1000, rating = 1000 } => read
reference = { khz = 1000, margin = -1 } => value 12 0 0
reference = { khz = 1000, margin = 1073741824 } => read
reference = { khz = 1000, margin = 1073741825 } => value 12 0 0
";

const CPUS: &str = "
cpu = [] => value 13 0 0
cpu = [{}, {}] => value 13 0 0
cpus = 2 => value 13 0 0
cpu = [{ khz = 999 }] => value 14 1 0
cpus = 2;cpu = [{}, { khz = 4000001 }] => value 14 2 0
cpu = [{ offset = 17592186044416 }] => read
cpu = [{ offset = -17592186044416 }] => read
cpu = [{ offset = 17592186044417 }] => value 15 1 0
cpu = [{ offset = -17592186044417 }] => value 15 1 0
cpu = [{ jumps = [[-1, 0]] }] => value 16 1 1
cpu = [{ jumps = [[2199023255552, 0]] }] => read
cpu = [{ jumps = [[0, 0], [2199023255553, 0]] }] => value 16 1 2
cpu = [{ jumps = [[5, 1], [5, 1]] }] => read
cpu = [{ jumps = [[5, 1], [4, 1]] }] => value 16 1 2
cpu = [{ jumps = [[0, 17592186044416], [1, 0]] }] => read
cpu = [{ jumps = [[0, -17592186044415], [1, 1], [2, 1]] }] => value 16 1 3
cpu = [{ jumps = [[0, 17592186044417]] }] => value 16 1 1
cpu = [{ repeat = -1 }] => value 17 1 0
cpu = [{ repeat = 0, script = ['update'] }] => read
cpu = [{ repeat = 65536, script = ['local'] }] => read
cpu = [{ repeat = 65537 }] => value 17 1 0
cpu = [{ script = ['pause 0'] }] => value 18 1 1
cpu = [{ script = ['local', 'pause 16777217'] }] => value 18 1 2
cpu = [{ script = ['pause 999999999'] }] => value 18 1 1
cpu = [{ script = ['remote 1'] }] => cpu 18 1 1
cpus = 2;cpu = [{ script = ['remote 9'] }, {}] => cpu 18 1 1
cpus = 2;cpu = [{}, { script = ['remote 1', 'remote 2'] }] => cpu 18 2 2
cpu = [{ repeat = 32769, script = ['local', 'local'] }] => value 18 1 0
cpu = [{ repeat = 1024, script = ['update'] }] => read
cpu = [{ repeat = 1025, script = ['update'] }] => value 18 1 0
cpu = [{ repeat = 513, script = ['update', 'local', 'update'] }] => value 18 1 0
";

const READERS: &str = "
reader = [{ cpu = 1 }] => cpu 20 1 0
reader = [{ cpu = 0 }, { cpu = -1 }] => cpu 20 2 0
reader = [{ cpu = 0, repeat = -1 }] => value 21 1 0
reader = [{ cpu = 0, repeat = 65537 }] => value 21 1 0
reader = [{ cpu = 0, script = ['pause 0'] }] => value 22 1 1
reader = [{ cpu = 0, script = ['local', 'remote 1'] }] => cpu 22 1 2
reader = [{ cpu = 0, repeat = 65536, script = ['local', 'local'] }] => value 22 1 0
";

const DELAYS: &str = "
delay = [{ ticket = -1, ns = 0 }] => value 24 1 0
delay = [{ ticket = 16777215, ns = 0 }] => read
delay = [{ ticket = 16777216, ns = 0 }] => value 24 1 0
delay = [{ ticket = 5, ns = 0 }, { ticket = 5, ns = 0 }] => value 24 2 0
delay = [{ ticket = 0, ns = -1 }] => value 25 1 0
delay = [{ ticket = 0, ns = 549755813888 }] => read
delay = [{ ticket = 0, ns = 549755813889 }] => value 25 1 0
delay = [{ ticket = 0, ns = 549755813888 }, { ticket = 1, ns = 1 }] => value 25 2 0
";

const BRING_UP: &str = "
bringup = { adjust = true, timeout_us = -1, turns = 0 } => value 28 0 0
bringup = { adjust = true, timeout_us = 1000000, turns = 4096 } => read
bringup = { adjust = true, timeout_us = 1000001, turns = 0 } => value 28 0 0
bringup = { adjust = true, timeout_us = 0, turns = -1 } => value 29 0 0
bringup = { adjust = true, timeout_us = 0, turns = 4097 } => value 29 0 0
";

const WATCHDOG: &str = "
watchdog = { checks = -1, pause = 1, skew = 0, retries = 0 } => value 31 0 0
watchdog = { checks = 4097, pause = 1, skew = 0, retries = 0 } => value 31 0 0
watchdog = { checks = 0, pause = 0, skew = 0, retries = 0 } => value 32 0 0
watchdog = { checks = 0, pause = 65537, skew = 0, retries = 0 } => value 32 0 0
watchdog = { checks = 0, pause = 65536, skew = -1, retries = 0 } => value 33 0 0
watchdog = { checks = 0, pause = 1, skew = 1073741825, retries = 0 } => value 33 0 0
watchdog = { checks = 0, pause = 1, skew = 1073741824, retries = -1 } => value 34 0 0
watchdog = { checks = 0, pause = 1, skew = 0, retries = 11 } => value 34 0 0
watchdog = { checks = 4096, pause = 1, skew = 0, retries = 10 } => read
";

const SOURCES: &str = "
source = [{ tsc = true, rating = 1, margin = 0 }, { tsc = true, rating = 1, margin = 0 }] => value 37 2 0
source = [{ tsc = true, rating = 0, margin = 0 }] => value 38 1 0
source = [{ tsc = true, rating = 1001, margin = 0 }] => value 38 1 0
source = [{ tsc = true, rating = 1000, margin = -1 }] => value 39 1 0
source = [{ tsc = true, rating = 1, margin = 1073741825 }] => value 39 1 0
source = [{ tsc = true, rating = 1000, margin = 1073741824 }] => read
source = [{ rating = 1, margin = 0, nominal_khz = 999 }] => value 40 1 0
source = [{ rating = 1, margin = 0, nominal_khz = 4000001 }] => value 40 1 0
source = [{ rating = 1, margin = 0, nominal_khz = 1000, khz = 999 }] => value 41 1 0
source = [{ rating = 1, margin = 0, nominal_khz = 1000, khz = 4000001 }] => value 41 1 0
source = [{ rating = 1, margin = 0, nominal_khz = 1000, bits = 33 }] => value 42 1 0
source = [{ rating = 1, margin = 0, nominal_khz = 1000, bits = 56, jumps = [[1, 1], [0, 1]] }] => value 43 1 2
";

const TICKETS: &str = "
cpu = [{ script = ['pause 16777213'] }] => read
cpu = [{ script = ['pause 16777214'] }] => tickets 16777217
cpu = [{ script = ['pause 16777216'] }] => tickets 16777219
stable = true;cpu = [{ script = ['pause 16777212'] }] => tickets 16777217
";

const ORDER: &str = "
cpus = 0;step = 0 => value 2 0 0
step = 0;reference = { khz = 0 } => value 3 0 0
reference = { khz = 0 };cpu = [] => value 9 0 0
cpu = [];reader = [{ cpu = 1 }] => value 13 0 0
cpu = [{ khz = 0, offset = 99999999999999 }] => value 14 1 0
cpus = 2;cpu = [{ script = ['pause 0'] }, { khz = 0 }] => value 18 1 1
cpu = [{ repeat = -1, script = ['pause 0'] }] => value 17 1 0
cpu = [{ script = ['remote 9', 'pause 0'] }] => cpu 18 1 1
cpu = [{ script = ['pause 0', 'remote 9'] }] => value 18 1 1
cpu = [{ repeat = 65536, script = ['update', 'pause 0'] }] => value 18 1 2
cpu = [{ script = ['pause 0'] }];reader = [{ cpu = 1 }] => value 18 1 1
reader = [{ cpu = 1, repeat = -1 }] => cpu 20 1 0
reader = [{ cpu = 1 }];delay = [{ ticket = -1, ns = 0 }] => cpu 20 1 0
delay = [{ ticket = 0, ns = -1 }, { ticket = 0, ns = 0 }] => value 25 1 0
delay = [{ ticket = -1, ns = -1 }] => value 24 1 0
delay = [{ ticket = 0, ns = -1 }];bringup = { adjust = true, timeout_us = -1, turns = -1 } => value 25 1 0
bringup = { adjust = true, timeout_us = -1, turns = -1 } => value 28 0 0
watchdog = { checks = -1, pause = 0, skew = 0, retries = 0 };source = [{ tsc = true, rating = 0, margin = 0 }] => value 31 0 0
source = [{ tsc = true, rating = 1, margin = 0 }, { tsc = true, rating = 0, margin = 0 }] => value 37 2 0
source = [{ tsc = true, rating = 0, margin = -1 }] => value 38 1 0
source = [{ rating = 1, margin = -1, nominal_khz = 0 }] => value 39 1 0
cpu = [{ script = ['pause 16777216'] }];source = [{ tsc = true, rating = 0, margin = 0 }] => value 38 1 0
";

// The ranges that version 2 has or changes, beside those of version 1.
const VERSIONS: &str = "
version = 2;cpus = 0 => value 2 0 0
version = 2;cpus = 65 => value 2 0 0
version = 2;cpus = 64 => value 13 0 0
version = 2;cpus = 17 => value 13 0 0
version = 2;base = 9223372036854775807 => read
version = 2;base = -9223372036854775808 => read
version = 2;cpu = [{ socket = -1 }] => value 45 1 0
version = 2;cpu = [{ socket = 63 }] => read
version = 2;cpus = 2;cpu = [{}, { socket = 64 }] => value 45 2 0
version = 2;bringup = { adjust = true, timeout_us = 0, first_us = -1, turns = 0 } => value 46 0 0
version = 2;bringup = { adjust = true, timeout_us = 0, first_us = 1000000, turns = 0 } => read
version = 2;bringup = { adjust = true, timeout_us = 0, first_us = 1000001, turns = 0 } => value 46 0 0
version = 2;bringup = { adjust = true, timeout_us = 1000001, turns = 0 } => value 28 0 0
version = 2;delay = [{ ticket = 16777216, ns = 0 }] => read
version = 2;delay = [{ ticket = 67108863, ns = 0 }] => read
version = 2;delay = [{ ticket = 67108864, ns = 0 }] => value 24 1 0
version = 2;cpu = [{ script = ['pause 16777214'] }] => read
version = 2;cpu = [{ script = ['pause 16777217'] }] => value 18 1 1
version = 2;cpu = [{ script = ['pause 16777216', 'pause 16777216', 'pause 16777216', 'pause 16777213'] }] => read
version = 2;cpu = [{ script = ['pause 16777216', 'pause 16777216', 'pause 16777216', 'pause 16777214'] }] => tickets 67108865
version = 2;cpu = [{ offset = 99999999999999, socket = 64 }] => value 15 1 0
version = 2;cpu = [{ socket = 64, jumps = [[-1, 0]] }] => value 45 1 0
version = 2;bringup = { adjust = true, timeout_us = -1, first_us = -1, turns = -1 } => value 28 0 0
version = 2;bringup = { adjust = true, timeout_us = 0, first_us = -1, turns = -1 } => value 46 0 0
version = 2;step = 0;cpu = [{ socket = 64 }] => value 3 0 0
";

// One refusal of each code, in both versions.
const REFUSALS: &str = "
cpus => key 2 0 0
version = 2;cpus => key 2 0 0
step = 0 => value 3 0 0
version = 2;step = 0 => value 3 0 0
cpu = [{ script = ['local', 'locl'] }] => word 18 1 2
version = 2;cpu = [{ script = ['local', 'locl'] }] => word 18 1 2
cpus = 2;cpu = [{ script = ['remote 9'] }, {}] => cpu 18 1 1
version = 2;cpus = 2;cpu = [{ script = ['remote 9'] }, {}] => cpu 18 1 1
cpu = [{ script = ['pause 16777214'] }] => tickets 16777217
step = 0;colour = 1 => key 100 0 0
version = 2;step = 0;colour = 1 => key 100 0 0
version = 2;step = 0;base = 0 => value 3 0 0
step = 0;base = 0 => key 100 0 0
";
