// The host functions of a run.
ghost use Rattle.std.specs.Prelude.{◌≡◌, ◌<◌, length, slice_get, Some};

use dyl_link::host_table::HostName;

/// The host function of an entry.
pub fn host_at<'a>(hosts: &'a [HostName], entry: u32) -> &'a HostName
    requires { entry < length hosts.now }
    ensures { slice_get hosts.now entry ≡ Some result.now }
{
    &hosts[entry as usize]
}
